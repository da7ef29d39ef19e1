ghost use Rattle.std.specs.Prelude.{◌≡◌, ◌<◌, ◌≤◌, length, IfOk};
ghost use Rattle.std.specs.List.{AllWithin};
ghost use Rattle.pf_picture.specs.Denials.{AreDenialsByTask, HaveRisingNumbers, owner_of};

use pf_collections::table::lists::Lists;
use pf_run::denied::Denied;
use pf_scenario::event::Numbered;
use std::alloc::{AllocError, Global};

/// How many of the events have a number below this one.
fn place_of(events: &[Numbered], id: u64) -> usize
    requires { HaveRisingNumbers events.now }
    ensures within { result ≤ length events.now }
    ensures below { AllWithin (λ x. x.id < id) events.now 0 result }
    ensures others { AllWithin (λ x. id ≤ x.id) events.now result (length events.now) }
{
    events.partition_point(|numbered| numbered.id < id)
}

/// The task of the event of this number, where one of these events has it and is of a task.
fn owner_of(events: &[Numbered], id: u64) -> Option<u64>
    requires { HaveRisingNumbers events.now }
    ensures { result ≡ owner_of events.now id }
{
    let place = place_of(events, id);
    if place < events.len() && events[place].id == id {
        return events[place].event.task();
    }
    None
}

/// Of each task number the denials of the task's own events among these, in their order: one walk over the denials.
///
/// # Errors
///
/// Where memory is refused.
pub(crate) fn denials_by_task(
    alloc: Global,
    events: &[Numbered],
    denials: &[Denied],
) -> Result<Lists<Denied>, AllocError>
    requires { HaveRisingNumbers events.now }
    ensures { IfOk result (λ table. AreDenialsByTask events.now denials.now table) }
{
    let mut table = Lists::new(alloc);
    for denied in denials {
        if let Some(task) = owner_of(events, denied.id) {
            table.note(task, *denied)?;
        }
    }
    Ok(table)
}
