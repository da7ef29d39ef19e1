ghost use Rattle.std.specs.Prelude.{◌≡◌, ◌*ℤ◌, pos, sum_by, IfOk};
ghost use Rattle.pf_diff.specs.Summary.{is_worse, summary_of, worst_of};

use pf_desk::snapshot::Snapshot;
use pf_tally::figures::Figures;
use pf_tally::miss::Miss;
use std::alloc::AllocError;

/// What a snapshot comes to.
#[derive(Clone, Copy)]
pub struct Summary {
    /// How many processors there are.
    pub processors: u64,
    /// The base h: a processor has h units in a slot.
    pub base: u64,
    /// The cap of the load, in units of 1/h.
    pub cap: u64,
    /// The slots stepped.
    pub slots: u64,
    /// The tasks admitted in them.
    pub tasks: u64,
    /// The events denied in them.
    pub denials: u64,
    /// The missed windows.
    pub misses: u64,
    /// The first of them, by deadline, then by task.
    pub first_miss: Option<Miss>,
    /// The figures of the task whose greatest lag is the worst, as a part of a quantum: of equal ones the first.
    pub worst: Option<Figures>,
    /// The preemptions of all tasks.
    pub preemptions: u128,
    /// Their migrations.
    pub migrations: u128,
}

/// A lag times a period.
fn scaled(lag: i64, period: u64) -> i128
    ensures { result ≡ lag *ℤ pos period }
{
    i128::from(lag) * i128::from(period)
}

/// Whether the greatest lag of one task is above that of another, as parts of a quantum.
fn is_worse(one: &Figures, other: &Figures) -> bool
    ensures { result ≡ is_worse one.now other.now }
{
    scaled(one.lag.greatest, other.period) > scaled(other.lag.greatest, one.period)
}

/// The figures of the task whose greatest lag is the worst; of equal ones the first.
fn worst(figures: &[Figures]) -> Option<Figures>
    ensures { result ≡ worst_of figures.now }
{
    let mut worst = None;
    for one in figures {
        worst = match worst {
            Some(other) if !is_worse(one, &other) => Some(other),
            _ => Some(*one),
        };
    }
    worst
}

/// The preemptions of all tasks.
fn preemptions(figures: &[Figures]) -> u128
    ensures { result ≡ sum_by (λ f. f.preemptions) figures.now }
{
    let mut total = 0;
    for one in figures {
        total += u128::from(one.preemptions);
    }
    total
}

/// The migrations of all tasks.
fn migrations(figures: &[Figures]) -> u128
    ensures { result ≡ sum_by (λ f. f.migrations) figures.now }
{
    let mut total = 0;
    for one in figures {
        total += u128::from(one.migrations);
    }
    total
}

/// What a snapshot comes to.
///
/// # Errors
///
/// Where memory is refused.
pub fn sum_up(snapshot: &Snapshot) -> Result<Summary, AllocError>
    ensures { IfOk result (λ summary. summary ≡ summary_of snapshot.now) }
{
    let settings = snapshot.settings();
    let figures = snapshot.figures()?;
    let misses = snapshot.misses()?;
    Ok(Summary {
        processors: u64::from(settings.processors()),
        base: settings.base().get(),
        cap: settings.cap(),
        slots: snapshot.now(),
        tasks: figures.len() as u64,
        denials: snapshot.denials().len() as u64,
        misses: misses.len() as u64,
        first_miss: misses.first().copied(),
        worst: worst(&figures),
        preemptions: preemptions(&figures),
        migrations: migrations(&figures),
    })
}
