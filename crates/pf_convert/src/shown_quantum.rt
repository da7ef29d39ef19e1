ghost use Rattle.std.specs.Prelude.{◌≡◌, ◌<◌, ◌↔◌, ◌⊎◌, IsTrue, IfSome, MatchOption, length};
ghost use Rattle.pf_convert.specs.Outcomes.{IsNoFarther, IsClosestQuantum, IsShownQuantum, outcome_at};

use crate::best_quantum::best_quantum;
use crate::outcome::Outcome;

/// Whether the first is at least as close to a plan that fits.
fn is_no_farther(a: Outcome, b: Outcome) -> bool
    ensures { IsTrue result ↔ IsNoFarther a b }
{
    let is_long = b.quantum <= a.quantum;
    match (a.needed, b.needed) {
        (Some(ours), Some(theirs)) => ours < theirs || ours == theirs && is_long,
        (Some(_), None) => true,
        (None, Some(_)) => false,
        (None, None) => a.faults < b.faults || a.faults == b.faults && is_long,
    }
}

/// The place of the closer one.
#[tactic(auto, using(crate::proofs::Closing::turned))]
fn closer(outcomes: &[Outcome], closest: usize, next: usize) -> usize
    requires closest { closest < length outcomes.now }
    requires next { next < length outcomes.now }
    ensures { (IsNoFarther (outcome_at outcomes.now closest) (outcome_at outcomes.now next) × (result ≡ closest))
        ⊎ (IsNoFarther (outcome_at outcomes.now next) (outcome_at outcomes.now closest) × (result ≡ next)) }
{
    if is_no_farther(outcomes[closest], outcomes[next]) {
        closest
    } else {
        next
    }
}

/// The place of the quantum that is closest to a plan that fits, none where there are no quanta.
#[tactic(auto, using(crate::proofs::Closing::first_closest, crate::proofs::Closing::closer_of_first, crate::proofs::Closing::closest_of_all))]
fn closest_quantum(outcomes: &[Outcome]) -> Option<usize>
    ensures { MatchOption result (length outcomes.now ≡ 0) (IsClosestQuantum outcomes.now) }
{
    if outcomes.is_empty() {
        return None;
    }
    let mut closest = 0;
    for next in 1..outcomes.len() {
        closest = closer(outcomes, closest, next);
    }
    Some(closest)
}

/// The place of the quantum whose plan is shown: the best, or where none fits the one that is closest to it, with a plan
/// that needs the fewest processors, or else with the fewest faults, and of those the longest; none where there are no quanta.
pub fn shown_quantum(outcomes: &[Outcome], processors: Option<u64>) -> Option<usize>
    ensures shown { MatchOption result (length outcomes.now ≡ 0) (IsShownQuantum processors outcomes.now) }
    ensures within { IfSome result (λ i. i < length outcomes.now) }
{
    match best_quantum(outcomes, processors) {
        Some(best) => Some(best),
        None => closest_quantum(outcomes),
    }
}
