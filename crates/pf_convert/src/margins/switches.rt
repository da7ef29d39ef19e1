ghost use Rattle.std.specs.Prelude.{◌≡◌, ◌<◌, ◌≤◌, ◌↔◌, IsTrue, MatchOption, All, length};
ghost use Rattle.pf_convert.specs.Margins.Fitting.{IsPlan};
ghost use Rattle.pf_convert.specs.Margins.Switches.{HasNoSwitch, HasRoomForSwitch, IsMostSwitch};
ghost use Rattle.pf_convert.specs.Slots.{IsTimed};
ghost use Rattle.pf_convert.specs.declared.quantum.TheConstants.{LONGEST_QUANTUM};

use crate::plan::Plan;
use crate::timed::Timed;

/// Whether so many processors have room for the tasks where a switch takes so much of each quantum of a length.
fn has_room(processors: u64, quantum: u64, times: &[Timed], plan: &Plan, switch: u64) -> bool
    requires processors { processors ≤ 64 }
    requires switch { switch < quantum }
    requires timed { All IsTimed times.now }
    requires plan { IsPlan plan.now }
    requires as_many { length times.now ≡ length plan.now.tasks.items }
    ensures { IsTrue result ↔ HasRoomForSwitch processors quantum times.now plan.now switch }
{
    let mut load = 0;
    for (place, task) in plan.tasks.iter().enumerate() {
        let cost = times[place].work.div_ceil(quantum - switch);
        if cost > task.period {
            return false;
        }
        load += cost * (plan.base / task.period);
    }
    load <= processors * plan.base
}

/// The longest switch for which so many processors have room where the tasks have these times, in nanoseconds; none where
/// there is room for none. It is found by halves.
pub fn most_switch(processors: u64, quantum: u64, times: &[Timed], plan: &Plan) -> Option<u64>
    requires processors { processors ≤ 64 }
    requires some { 1 ≤ quantum }
    requires short { quantum ≤ LONGEST_QUANTUM }
    requires timed { All IsTimed times.now }
    requires plan { IsPlan plan.now }
    requires as_many { length times.now ≡ length plan.now.tasks.items }
    ensures { MatchOption result (HasNoSwitch processors quantum times.now plan.now) (IsMostSwitch processors quantum times.now plan.now) }
{
    if !has_room(processors, quantum, times, plan, 0) {
        return None;
    }
    let mut least = 0;
    let mut above = quantum;
    while above - least > 1 {
        let middle = least + (above - least) / 2;
        if has_room(processors, quantum, times, plan, middle) {
            least = middle;
        } else {
            above = middle;
        }
    }
    Some(least)
}
