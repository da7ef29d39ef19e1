ghost use Rattle.std.specs.Prelude.{◌≡◌, []};
ghost use Rattle.std.specs.Result.{result_err};
ghost use Rattle.pf_scenario.specs.Edit.{event_fault, is_within, unless};

use crate::event::Event;
use crate::fault::EditFault;
use crate::settings::Settings;
use pf_weight::task::LARGEST_TASK;
use pf_weight::weight::Weight;

/// The most slots that a subtask may run before its release.
pub const MOST_EARLY: u64 = 1 << 20;

/// The most slots of a delay.
pub const LONGEST_DELAY: u64 = 1 << 20;

/// The greatest distance of two checkpoints of a run, in slots.
pub const LARGEST_DISTANCE: u64 = 4096;

/// `TaskOutOfRange` where the task is not 1 to 4,095.
fn check_task(task: u64) -> Result<(), EditFault>
    ensures { result_err result ≡ unless (is_within LARGEST_TASK task) EditFault.TaskOutOfRange }
{
    if task == 0 || task > LARGEST_TASK {
        return Err(EditFault::TaskOutOfRange);
    }
    Ok(())
}

/// Whether an event is within its limits.
///
/// # Errors
///
/// The first test that fails, in the order of `EditFault`.
pub fn check_limits(settings: Settings, event: &Event) -> Result<(), EditFault>
    ensures { result_err result ≡ event_fault settings [] event.now }
{
    if event.slot() >= settings.horizon() {
        return Err(EditFault::SlotOutOfRange);
    }
    match *event {
        Event::Join {
            task,
            cost,
            period,
            early,
            ..
        } => {
            check_task(task)?;
            if early > MOST_EARLY {
                return Err(EditFault::EarlyOutOfRange);
            }
            Weight::new(settings.base(), cost, period).map_err(EditFault::BadWeight)?;
            Ok(())
        }
        Event::Leave { task, .. } => check_task(task),
        Event::Delay { task, by, .. } => {
            check_task(task)?;
            if by == 0 || by > LONGEST_DELAY {
                return Err(EditFault::DelayOutOfRange);
            }
            Ok(())
        }
        Event::Limit { count, .. } => {
            if count == 0 || count > u64::from(settings.processors()) {
                return Err(EditFault::CountOutOfRange);
            }
            Ok(())
        }
    }
}
