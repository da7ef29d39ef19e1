ghost use Rattle.std.specs.Prelude.{◌≡◌, ◌-◌, ◌^◌, ◌<◌, ◌≤◌, length, All, AllPairs};
ghost use Rattle.std.specs.List.Sorted.{IsNonDecreasing};
ghost use Rattle.pf_weight.specs.Share.{IsShare};
ghost use Rattle.pf_scenario.specs.declared.settings.TheConstants.{WIDE_HORIZON};
ghost use Rattle.pf_tally.specs.Held.{AreSuccessive, IsSmall};
ghost use Rattle.pf_tally.specs.Figures.{extremes_upto, last_slot};
ghost use Rattle.pf_tally.specs.Ranges.{lag_by};

use crate::admitted::Admitted;
use crate::clock::lag_after;
use crate::extremes::Extremes;
use crate::held::{Held, slots_below};
use crate::late::leave_of;
use pf_scenario::event::Numbered;

/// The slot of the task's leave, or `now` where it did not leave.
pub(crate) fn last_slot(events: &[Numbered], task: Admitted, now: u64) -> u64
    ensures { result ≡ last_slot events.now task now }
{
    let left = match leave_of(events, task.task) {
        Some(numbered) => numbered.event.slot().min(now),
        None => now,
    };
    task.slot.max(left)
}

/// The least and the greatest lag of the task after its join slot, and so on to slot `last`, times its period. The lag
/// falls in the slots in which the task runs, and in no other.
pub(crate) fn lag_range(task: Admitted, ran: &[u64], delays: &[Held], last: u64) -> Extremes
    requires share { IsShare task.weight }
    requires chain { AreSuccessive 0 task.slot delays.now }
    requires small { All IsSmall delays.now }
    requires joined { task.slot ≤ last }
    requires within { last ≤ WIDE_HORIZON }
    requires rising { IsNonDecreasing ran.now }
    requires apart { AllPairs (λ a b. a < b) ran.now }
    requires few { length ran.now ≤ WIDE_HORIZON }
    ensures { result ≡ extremes_upto (lag_by task ran.now delays.now) task.slot (last - task.slot) }
{
    let mut seen = task.slot;
    let mut received = 0;
    let mut range = Extremes::of(lag_after(task, slots_below(ran, seen), delays, seen));
    for slot in ran {
        if seen <= *slot && *slot < last {
            let before = lag_after(task, received, delays, *slot);
            seen = *slot + 1;
            range = range
                .with(before)
                .with(lag_after(task, received + 1, delays, seen));
        }
        received += 1;
    }
    range.with(lag_after(task, slots_below(ran, last), delays, last))
}
