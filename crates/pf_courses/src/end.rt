ghost use Rattle.std.specs.Prelude.{◌≡◌, ◌≤◌};
ghost use Rattle.pf_courses.specs.Course.{end_of, leave_slot};

use pf_scenario::event::Numbered;
use pf_tally::admitted::Admitted;
use pf_tally::late::leave_of;

/// The slot of the task's leave, if it left.
pub fn leave_slot(events: &[Numbered], task: Admitted) -> Option<u64>
    ensures { result ≡ leave_slot events.now task }
{
    let left = leave_of(events, task.task)?;
    Some(left.event.slot())
}

/// The slot of the task's leave, or `now` where it did not leave.
pub fn end_of(events: &[Numbered], task: Admitted, now: u64) -> u64
    ensures value { result ≡ end_of events.now task now }
    ensures most { result ≤ now }
{
    match leave_of(events, task.task) {
        Some(numbered) => numbered.event.slot().min(now),
        None => now,
    }
}
