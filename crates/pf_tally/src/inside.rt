ghost use Rattle.std.specs.Prelude.{◌≡◌, false, All, AllPairs, filter, not, IfOk};
ghost use Rattle.pf_scenario.specs.Edit.{IsEvent, join_alike};
ghost use Rattle.pf_run.specs.Inside.{is_leave_of, has_left, inside};
ghost use Rattle.pf_tally.specs.Lags.{by_task};
ghost use Rattle.pf_collections.specs.Table.Lists.{noted_of};
ghost use Rattle.pf_tally.specs.Own.{AreDiaries};

use crate::admitted::{Admitted, admitted_tasks};
use pf_collections::table::lists::Lists;
use pf_scenario::event::{Event, Numbered};
use pf_scenario::settings::Settings;
use std::alloc::{AllocError, Global};

/// Whether the event is a leave of the task.
pub(crate) fn is_leave_of(task: u64, event: &Event) -> bool
    ensures { result ≡ is_leave_of task event.now }
{
    match *event {
        Event::Leave { task: number, .. } => number == task,
        _ => false,
    }
}

/// Whether the task leaves by one of these events.
fn has_left(events: &[Numbered], task: u64) -> bool
    ensures { result ≡ has_left events.now task }
{
    events
        .iter()
        .any(|numbered| is_leave_of(task, &numbered.event))
}

/// Those of the tasks that do not leave by one of their own events, which the table notes.
fn staying(
    alloc: Global,
    tasks: &[Admitted],
    diaries: &Lists<Numbered>,
) -> Result<Vec<Admitted>, AllocError>
    ensures { IfOk result (λ v. v.items ≡ filter (λ j. not (has_left (noted_of diaries.now j.task) j.task)) tasks.now) }
{
    let mut staying = Vec::new(alloc);
    for task in tasks {
        if !has_left(diaries.get(task.task), task.task) {
            staying.push(*task)?;
        }
    }
    Ok(staying)
}

/// The tasks inside where these events are in force, by number. The table notes of each task its own events.
pub(crate) fn tasks_inside(
    alloc: Global,
    settings: Settings,
    events: &[Numbered],
    diaries: &Lists<Numbered>,
) -> Result<Vec<Admitted>, AllocError>
    requires limits { All (λ x. IsEvent settings x.event) events.now }
    requires once { AllPairs (λ x y. join_alike x.event y.event ≡ false) events.now }
    requires diaries { AreDiaries events.now diaries.now }
    ensures { IfOk result (λ v. v.items ≡ by_task (inside settings.base events.now)) }
{
    let admitted = admitted_tasks(alloc, settings, events)?;
    let mut tasks = staying(alloc, &admitted, diaries)?;
    tasks.sort_unstable_by_key(|task| task.task);
    Ok(tasks)
}
