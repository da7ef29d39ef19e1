ghost use Rattle.std.specs.Prelude.{◌<◌, ◌≤◌, MatchOption, length};
ghost use Rattle.pf_convert.specs.Margins.Fitting.{IsPlan};
ghost use Rattle.pf_convert.specs.Margins.Works.{HasNoWork, IsMostWork};
ghost use Rattle.pf_convert.specs.Slots.{IsQuantum};

use crate::margins::fitting::room_beside;
use crate::plan::Plan;
use crate::quantum::Quantum;

/// The most work of a job of the task at a place for which so many processors have room beside the other tasks, in
/// nanoseconds; none where there is room for no work.
pub fn most_work(processors: u64, quantum: Quantum, plan: &Plan, place: usize) -> Option<u64>
    requires processors { processors ≤ 64 }
    requires quantum { IsQuantum quantum }
    requires plan { IsPlan plan.now }
    requires place { place < length plan.now.tasks.items }
    ensures { MatchOption result (HasNoWork processors quantum plan.now place) (IsMostWork processors quantum plan.now place) }
{
    let task = plan.tasks[place];
    let room = room_beside(processors, plan, place);
    let cost = (room / (plan.base / task.period)).min(task.period);
    if cost == 0 {
        return None;
    }
    Some(cost * (quantum.length - quantum.switch))
}
