ghost use Rattle.std.specs.Prelude.{◌≡◌, IfOk};
ghost use Rattle.pf_answers.specs.Changes.{counts_of};

use pf_desk::desk::Desk;
use pf_desk::snapshot::Snapshot;
use std::alloc::AllocError;

/// How many lines the tables of missed windows and of denials have.
#[derive(Clone, Copy)]
pub struct Counts {
    /// Missed windows.
    pub misses: u64,
    /// Denied events.
    pub denials: u64,
}

impl Counts {
    ghost use Rattle.std.specs.Prelude.{◌≡◌, IfOk};
    ghost use Rattle.pf_answers.specs.Changes.{counts_of};

    /// Those of a desk.
    ///
    /// # Errors
    ///
    /// Where memory is refused.
    pub fn of_desk(desk: &Desk) -> Result<Self, AllocError>
        ensures { IfOk result (λ counts. counts ≡ counts_of desk.now.state) }
    {
        let misses = desk.misses()?;
        Ok(Counts {
            misses: misses.len() as u64,
            denials: desk.denials().len() as u64,
        })
    }

    /// Those of what a snapshot shows.
    ///
    /// # Errors
    ///
    /// Where memory is refused.
    pub fn of_snapshot(snapshot: &Snapshot) -> Result<Self, AllocError>
        ensures { IfOk result (λ counts. counts ≡ counts_of snapshot.now.state) }
    {
        // That its denials are those of the run is known from this call alone.
        let _ = snapshot.now();
        let misses = snapshot.misses()?;
        Ok(Counts {
            misses: misses.len() as u64,
            denials: snapshot.denials().len() as u64,
        })
    }
}
