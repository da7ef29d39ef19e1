ghost use Rattle.std.specs.Prelude.{◌≡◌, ◌+◌, ◌-◌, ◌*◌, ◌^◌, ◌≤◌, pos, ◌-ℤ◌, length, map, IfOk};
ghost use Rattle.std.specs.List.{range_with_len};
ghost use Rattle.std.specs.List.Sorted.{IsNonDecreasing, IsNonDecreasingBy};
ghost use Rattle.pf_courses.specs.Built.{lag_with};

use crate::pause::{Pause, is_stopped};
use pf_tally::admitted::Admitted;
use pf_tally::held::slots_below;
use pf_weight::weight::Weight;
use std::alloc::{AllocError, Global};

/// The lag, times the period, of a task of this clock that received so many quanta.
fn lag_from(weight: Weight, clock: u64, received: u64) -> i64
    requires clock { clock ≤ 2 ^ 23 }
    requires received { received ≤ 2 ^ 22 }
    ensures { result ≡ pos (weight.cost * clock) -ℤ pos (weight.period * received) }
{
    let owed = weight.cost() * clock;
    let had = weight.period() * received;
    owed as i64 - had as i64
}

/// The lags, times the period, of a task that ran in the slots `ran` and whose clock has these stops: after the first t
/// slots for each t from its join to `end`.
pub(crate) fn lags_of(
    alloc: Global,
    task: Admitted,
    ran: &[u64],
    stops: &[Pause],
    end: u64,
) -> Result<Vec<i64>, AllocError>
    requires rising { IsNonDecreasing ran.now }
    requires few { length ran.now ≤ 2 ^ 22 }
    requires starts { IsNonDecreasingBy (λ s. s.start) stops.now }
    requires ends { IsNonDecreasingBy (λ s. s.end) stops.now }
    requires within { end ≤ 2 ^ 22 }
    ensures { IfOk result (λ v. v.items ≡ map (lag_with task ran.now stops.now) (range_with_len task.slot (end + 1 - task.slot))) }
{
    let weight = task.weight;
    let mut lags = Vec::new(alloc);
    let mut clock = 0;
    for t in task.slot..end + 1 {
        let received = slots_below(ran, t);
        lags.push(lag_from(weight, clock, received))?;
        if !is_stopped(stops, t) {
            clock += 1;
        }
    }
    Ok(lags)
}
