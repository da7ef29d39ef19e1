ghost use Rattle.std.specs.Prelude.{◌≡◌, length, IfOk};
ghost use Rattle.pf_run.specs.Computed.{run_of};
ghost use Rattle.pf_run.specs.RunRows.{AreOfRun};
ghost use Rattle.pf_courses.specs.Course.{tracks_of};

use crate::course::Course;
use pf_place::rows::Rows;
use pf_run::denied::Denied;
use pf_scenario::scenario::Scenario;
use pf_tally::admitted::admitted_by_number;
use pf_tally::ledger::make_ledger;
use pf_tally::processors::{processors_by_task, processors_of};
use std::alloc::{AllocError, Global};

/// The courses of the tasks admitted in the slots of these rows, those that left too, by task number. The rows and the
/// denials must be those of the scenario's run.
///
/// # Errors
///
/// Where memory is refused.
pub fn courses(
    alloc: Global,
    scenario: &Scenario,
    rows: &Rows,
    denials: &[Denied],
) -> Result<Vec<Course>, AllocError>
    requires { AreOfRun scenario.now (length rows.now) rows.now denials.now }
    ensures { IfOk result (λ v. v.items ≡ tracks_of scenario.now (run_of scenario.now (length rows.now)) rows.now) }
{
    let ledger = make_ledger(alloc, scenario, rows, denials)?;
    let processors = processors_by_task(alloc, ledger.settings.processors(), rows)?;
    let tasks = admitted_by_number(alloc, ledger.settings, &ledger.events)?;
    let mut courses = Vec::with_capacity(alloc, tasks.len())?;
    for task in &tasks {
        let on = processors_of(&processors, *task);
        let ran = ledger.quanta(*task);
        let diary = ledger.diary(*task);
        let course = Course::of(alloc, *task, on, ran, diary, ledger.now)?;
        courses.push(course)?;
    }
    Ok(courses)
}
