ghost use Rattle.std.specs.Prelude.{◌≡◌, ◌<◌, ◌≤◌, IsTrue, IsFalse, MatchOption, length};
ghost use Rattle.pf_convert.specs.Margins.Fitting.{IsPlan};
ghost use Rattle.pf_convert.specs.Margins.Periods.{AllBelow, HaveBase, HaveNoBase, IsLeastFrom, IsLesser, MakesLeastPeriod};
ghost use Rattle.pf_convert.specs.Smooth.{AreDivisors};

use crate::margins::fitting::room_beside;
use crate::margins::least_period::LeastPeriod;
use crate::multiples::least_of_both;
use crate::plan::Plan;

/// The lesser of the two.
fn lesser(least: Option<u64>, number: u64) -> u64
    ensures { IsLesser least number result }
{
    match least {
        Some(found) => found.min(number),
        None => number,
    }
}

/// The least of these numbers that is not below the other one, none where each is.
fn least_from(numbers: &[u64], other: u64) -> Option<u64>
    ensures { MatchOption result (AllBelow other numbers.now) (IsLeastFrom other numbers.now) }
{
    let mut least = None;
    for number in numbers {
        if *number >= other {
            least = Some(lesser(least, *number));
        }
    }
    least
}

/// Whether a base is a multiple of this period too: the plan has the least common multiple, and that of both is within the
/// limits.
fn has_base(plan: &Plan, period: u64) -> bool
    requires base { 1 ≤ plan.now.base }
    requires period { 1 ≤ period }
    ensures yes { IsTrue result → IsTrue plan.now.exact × HaveBase plan.now.base period }
    ensures no { IsFalse result → HaveNoBase plan.now period }
{
    plan.exact && least_of_both(plan.base, period).is_some()
}

/// The least period of the task at a place for which so many processors have room beside the other tasks. Where the base was
/// rounded to, or no base is a multiple of it and of the least period, it is the least of the base's divisors.
pub fn least_period(processors: u64, plan: &Plan, divisors: &[u64], place: usize) -> LeastPeriod
    requires processors { processors ≤ 64 }
    requires plan { IsPlan plan.now }
    requires divisors { AreDivisors plan.now.base divisors.now }
    requires place { place < length plan.now.tasks.items }
    ensures { MakesLeastPeriod processors plan.now place result }
{
    let room = room_beside(processors, plan, place);
    if room == 0 {
        return LeastPeriod::NoRoom;
    }
    let cost = plan.tasks[place].cost;
    let least = (cost * plan.base).div_ceil(room).max(cost);
    if has_base(plan, least) {
        return LeastPeriod::OfAll(least);
    }
    LeastPeriod::OfDivisors(least_from(divisors, least))
}
