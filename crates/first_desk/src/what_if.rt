ghost use Rattle.std.specs.Prelude.{◌≡◌, ◌++◌, ◌∷◌, [], IfOk};
ghost use Rattle.std.specs.Arc.{arc_value};
ghost use Rattle.pf_desk.specs.Desk.{IsAsBefore, StandsForHistory, entry_of};
ghost use Rattle.pf_desk.specs.Machine.{reply_to, state_after};
ghost use Rattle.first_desk.specs.Planned.{leave_command, planner};

use crate::plan::PLANNER;
use pf_desk::command::Command;
use pf_desk::desk::Desk;
use pf_desk::snapshot::Snapshot;
use pf_order::meter::Meter;
use pf_scenario::change::Change;
use pf_scenario::event::Event;
use std::alloc::AllocError;
use std::sync::Arc;

/// The planner's leave of a task.
fn leave(slot: u64, task: u64) -> Command
    ensures { result ≡ leave_command slot task }
{
    Command::Edit {
        change: Change::Insert(Event::Leave { slot, task }),
        strict: false,
    }
}

/// What the desk would show if the planner had the task leave in the slot. The command is made ready and never
/// committed, so the desk is as before.
///
/// # Errors
///
/// Where memory is refused.
pub fn if_left(desk: &mut Desk, slot: u64, task: u64) -> Result<Arc<Snapshot>, AllocError>
    ensures before { IsAsBefore desk.old desk.new }
    ensures state { IfOk result (λ s. (arc_value s).state
        ≡ state_after desk.old.state (leave_command slot task) (reply_to desk.old.state (leave_command slot task))) }
    ensures stands { IfOk result (λ s. StandsForHistory
        (desk.old.history ++ entry_of planner (leave_command slot task) (reply_to desk.old.state (leave_command slot task)) ∷ []) (arc_value s)) }
{
    let mut meter = Meter::new();
    let prepared = desk.prepare(&mut meter, PLANNER, leave(slot, task))?;
    Ok(Arc::try_clone(prepared.snapshot())?)
}
