ghost use Rattle.std.specs.Prelude.{◌≡◌, ◌<◌, ◌≤◌, length};
ghost use Rattle.pf_convert.specs.Margins.Fitting.{IsPlan, room_beside};

use crate::plan::Plan;

/// What the other tasks than that at a place leave of so many processors, in units of 1/base; 0 where they ask for more.
#[tactic(auto, using(crate::proofs::MarginsLemmas::Fitting::task_units, crate::proofs::MarginsLemmas::Fitting::processors_within))]
pub fn room_beside(processors: u64, plan: &Plan, place: usize) -> u64
    requires processors { processors ≤ 64 }
    requires plan { IsPlan plan.now }
    requires place { place < length plan.now.tasks.items }
    ensures { result ≡ room_beside processors plan.now place }
{
    let task = plan.tasks[place];
    let others = plan.load - task.cost * (plan.base / task.period);
    (processors * plan.base).saturating_sub(others)
}
