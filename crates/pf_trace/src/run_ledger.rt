ghost use Rattle.std.specs.Prelude.{◌≡◌, ◌==◌, find, IfOk};
ghost use Rattle.pf_trace.specs.Trace.{CanTrace, IsRunLedger, course_found};

use crate::course::Course;
use pf_collections::table::lists::Lists;
use pf_desk::snapshot::Snapshot;
use pf_tally::admitted::{Admitted, admitted_by_number};
use pf_tally::ledger::{Ledger, make_ledger};
use pf_tally::processors::{processors_by_task, processors_of};
use std::alloc::{AllocError, Global};

/// What the courses of a run's tasks rest on.
#[derive(Drop)]
pub struct RunLedger {
    /// The ledger of the run.
    pub ledger: Ledger,
    /// Of each task number the processors on which the task ran.
    pub processors: Lists<u32>,
    /// The tasks admitted, by number.
    pub admitted: Vec<Admitted>,
}

/// The admitted task of this number, if there is one.
fn admitted_of(admitted: &[Admitted], task: u64) -> Option<Admitted>
    ensures { result ≡ find (λ j. j.task == task) admitted.now }
{
    admitted
        .iter()
        .copied()
        .find(|admitted| admitted.task == task)
}

/// The course of the task of this number, if it was admitted.
pub(crate) fn course_of(
    alloc: Global,
    run: &RunLedger,
    task: u64,
) -> Result<Option<Course>, AllocError>
    requires { CanTrace run.now.ledger run.now.admitted.items }
    ensures { IfOk result (λ course. course ≡ course_found run.now.ledger run.now.admitted.items run.now.processors task) }
{
    match admitted_of(&run.admitted, task) {
        Some(joined) => {
            let ran = run.ledger.quanta(joined);
            let on = processors_of(&run.processors, joined);
            let diary = run.ledger.diary(joined);
            let slots = run.ledger.now;
            Ok(Some(Course::of(alloc, joined, ran, on, diary, slots)?))
        }
        None => Ok(None),
    }
}

/// That of a snapshot's run.
pub(crate) fn run_ledger(alloc: Global, snapshot: &Snapshot) -> Result<RunLedger, AllocError>
    ensures { IfOk result (λ run. IsRunLedger snapshot.now run) }
{
    // That the rows are those of the scenario's run is known from its calls alone.
    let _ = snapshot.now();
    let rows = snapshot.rows();
    let ledger = make_ledger(alloc, snapshot.scenario(), rows, snapshot.denials())?;
    let processors = processors_by_task(alloc, ledger.settings.processors(), rows)?;
    let admitted = admitted_by_number(alloc, ledger.settings, &ledger.events)?;
    Ok(RunLedger {
        ledger,
        processors,
        admitted,
    })
}
