ghost use Rattle.std.specs.Prelude.{◌≡◌, ◌+◌, ◌^◌, ◌≤◌};
ghost use Rattle.pf_verdict.specs.Totals.{totals_of, totals_with};

use pf_tally::figures::Figures;

/// Sums over the tasks.
#[derive(Clone, Copy)]
pub struct Totals {
    /// The missed windows.
    pub missed: u128,
    /// The preemptions.
    pub preemptions: u128,
    /// The migrations.
    pub migrations: u128,
}

impl Totals {
    /// Those with a task more.
    fn with(self, task: Figures) -> Self
        requires missed { self.missed ≤ 2 ^ 127 }
        requires preemptions { self.preemptions ≤ 2 ^ 127 }
        requires migrations { self.migrations ≤ 2 ^ 127 }
        ensures value { result ≡ totals_with self task }
        ensures missed { result.missed ≤ self.missed + 2 ^ 64 }
        ensures preemptions { result.preemptions ≤ self.preemptions + 2 ^ 64 }
        ensures migrations { result.migrations ≤ self.migrations + 2 ^ 64 }
    {
        Totals {
            missed: self.missed + u128::from(task.missed),
            preemptions: self.preemptions + u128::from(task.preemptions),
            migrations: self.migrations + u128::from(task.migrations),
        }
    }
}

/// The sums over these tasks.
pub fn totals_of(figures: &[Figures]) -> Totals
    ensures { result ≡ totals_of figures.now }
{
    let mut totals = Totals {
        missed: 0,
        preemptions: 0,
        migrations: 0,
    };
    for task in figures {
        totals = totals.with(*task);
    }
    totals
}
