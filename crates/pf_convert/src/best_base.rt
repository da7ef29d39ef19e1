ghost use Rattle.std.specs.Prelude.{◌≡◌, ◌+◌, ◌<◌, ◌≤◌, ◌⊎◌, ◌↔◌, IsTrue, IfOk, MatchOption, All, length};
ghost use Rattle.std.specs.List.{AllWithin};
ghost use Rattle.std.specs.List.Sorted.{IsPermutation, IsNonDecreasingBy};
ghost use Rattle.pf_weight.specs.declared.task.TheConstants.{LARGEST_TASK};
ghost use Rattle.pf_convert.specs.Rounding.{Holds, HasNoBase, IsBestBase, IsNoWorse, load_over};
ghost use Rattle.pf_convert.specs.Slots.{IsSlotted};
ghost use Rattle.pf_convert.specs.Smooth.{AreSmoothBases, IsDivided};
ghost use Rattle.pf_convert.specs.Totals.{AreTotals};

use crate::divided::Divided;
use crate::loaded::Loaded;
use crate::slotted::Slotted;
use crate::stretch::{first_stretch, stretch_of};
use crate::total::{Total, totals_of};
use std::alloc::{AllocError, Global};

/// The index of the first task after one whose period is not below the end, or how many tasks there are.
fn index_after(tasks: &[Slotted], from: usize, end: u64) -> usize
    requires there { from < length tasks.now }
    requires rising { IsNonDecreasingBy (λ t. t.period) tasks.now }
    ensures after { from < result }
    ensures within { result ≤ length tasks.now }
    ensures below { AllWithin (λ t. t.period < end) tasks.now (from + 1) result }
    ensures above { AllWithin (λ t. end ≤ t.period) tasks.now result (length tasks.now) }
{
    let mut low = from + 1;
    let mut high = tasks.len();
    'halves: while low < high {
        let middle = low + (high - low) / 2;
        if tasks[middle].period < end {
            low = middle + 1;
        } else {
            high = middle;
        }
    }
    low
}

/// What the tasks ask for over the base, each period rounded down to a divisor of it, in units of 1/base; none where a
/// cost is above its period then.
fn load_over(divided: &Divided, tasks: &[Slotted], totals: &[Total]) -> Option<u64>
    requires divided { IsDivided divided.now }
    requires slotted { All IsSlotted tasks.now }
    requires few { length tasks.now ≤ LARGEST_TASK }
    requires rising { IsNonDecreasingBy (λ t. t.period) tasks.now }
    requires totals { AreTotals tasks.now totals.now }
    ensures { MatchOption result (Holds divided.now.base tasks.now → ⊥)
        (λ load. Holds divided.now.base tasks.now × (load ≡ load_over divided.now.base tasks.now)) }
{
    let mut load = 0;
    let mut stretch = first_stretch(divided);
    let mut done = 0;
    'stretches: while done < tasks.len() {
        stretch = stretch_of(divided, stretch, tasks[done].period);
        let next = index_after(tasks, done, stretch.end);
        if totals[next].greatest > stretch.divisor {
            return None;
        }
        load += (totals[next].cost - totals[done].cost) * u128::from(stretch.share);
        done = next;
    }
    Some(load as u64)
}

/// Whether the first has the lower load as a part of its base, or the same and a base that is no greater.
fn is_no_worse(a: Loaded, b: Loaded) -> bool
    ensures { IsTrue result ↔ IsNoWorse a b }
{
    let ours = u128::from(a.load) * u128::from(b.base);
    let theirs = u128::from(b.load) * u128::from(a.base);
    ours < theirs || ours == theirs && a.base <= b.base
}

/// The better one of the two.
fn better(best: Option<Loaded>, next: Loaded) -> Loaded
    ensures { MatchOption best (result ≡ next)
        (λ b. (IsNoWorse b next × (result ≡ b)) ⊎ (IsNoWorse next b × (result ≡ next))) }
{
    match best {
        Some(found) => {
            if is_no_worse(found, next) {
                found
            } else {
                next
            }
        }
        None => next,
    }
}

/// The tasks, those with the shortest periods first.
fn by_period(alloc: Global, tasks: &[Slotted]) -> Result<Vec<Slotted>, AllocError>
    ensures permutation { IfOk result (λ v. IsPermutation tasks.now v.items) }
    ensures rising { IfOk result (λ v. IsNonDecreasingBy (λ t. t.period) v.items) }
{
    let mut sorted = Vec::from_slice(alloc, tasks)?;
    sorted.sort_unstable_by_key(|task| task.period);
    Ok(sorted)
}

/// The best base for tasks in the order of their periods, with the totals of these.
fn best_of(bases: &[Divided], tasks: &[Slotted], totals: &[Total]) -> Option<Loaded>
    requires bases { AreSmoothBases bases.now }
    requires slotted { All IsSlotted tasks.now }
    requires few { length tasks.now ≤ LARGEST_TASK }
    requires rising { IsNonDecreasingBy (λ t. t.period) tasks.now }
    requires totals { AreTotals tasks.now totals.now }
    ensures { MatchOption result (HasNoBase tasks.now) (IsBestBase tasks.now) }
{
    let mut best = None;
    for divided in bases {
        match load_over(divided, tasks, totals) {
            Some(load) => {
                let next = Loaded {
                    base: divided.base,
                    load,
                };
                best = Some(better(best, next));
            }
            None => {}
        }
    }
    best
}

/// The base for tasks whose periods have no common multiple that is a base: the one without a prime factor above 7 over
/// which they ask for the least part of a processor, each period rounded down to a divisor of it; of several the lowest,
/// and none where each has a cost above its period then.
///
/// # Errors
///
/// Where memory is refused.
pub fn best_base(
    alloc: Global,
    bases: &[Divided],
    tasks: &[Slotted],
) -> Result<Option<Loaded>, AllocError>
    requires bases { AreSmoothBases bases.now }
    requires slotted { All IsSlotted tasks.now }
    requires few { length tasks.now ≤ LARGEST_TASK }
    ensures { IfOk result (λ best. MatchOption best (HasNoBase tasks.now) (IsBestBase tasks.now)) }
{
    let sorted = by_period(alloc, tasks)?;
    let totals = totals_of(alloc, &sorted)?;
    Ok(best_of(bases, &sorted, &totals))
}
