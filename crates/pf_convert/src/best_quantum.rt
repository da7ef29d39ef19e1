ghost use Rattle.std.specs.Prelude.{◌≡◌, ◌<◌, ◌↔◌, ◌⊎◌, IsTrue, IfSome, MatchOption, length};
ghost use Rattle.pf_convert.specs.Outcomes.{Fits, IsNoWorseQuantum, NoneFits, IsBestQuantum, IsBetterQuantum};

use crate::outcome::Outcome;
use pf_scenario::settings::MOST_PROCESSORS;

/// Whether there is a plan that needs no more than the processors, as many as a desk has at most where none are told.
pub fn fits(processors: Option<u64>, outcome: Outcome) -> bool
    ensures { IsTrue result ↔ Fits processors outcome }
{
    match outcome.needed {
        Some(needed) => needed <= processors.unwrap_or(MOST_PROCESSORS),
        None => false,
    }
}

/// Whether the first is as good as the second: with processors told it is where it is as long; else where it needs fewer,
/// or as many and is as long.
fn is_no_worse(processors: Option<u64>, a: Outcome, b: Outcome) -> bool
    ensures { IsTrue result ↔ IsNoWorseQuantum processors a b }
{
    match processors {
        Some(_) => b.quantum <= a.quantum,
        None => {
            let ours = a.needed.unwrap_or(0);
            let theirs = b.needed.unwrap_or(0);
            ours < theirs || ours == theirs && b.quantum <= a.quantum
        }
    }
}

/// The place of the better one.
fn better(outcomes: &[Outcome], processors: Option<u64>, best: Option<usize>, next: usize) -> usize
    requires best { IfSome best (λ i. i < length outcomes.now) }
    requires next { next < length outcomes.now }
    ensures { IsBetterQuantum processors outcomes.now best next result }
{
    match best {
        Some(found) => {
            if is_no_worse(processors, outcomes[found], outcomes[next]) {
                found
            } else {
                next
            }
        }
        None => next,
    }
}

/// The place of the best quantum: with processors told the longest that fits, else of those that fit the longest among
/// those that need the fewest; none where none fits.
pub fn best_quantum(outcomes: &[Outcome], processors: Option<u64>) -> Option<usize>
    ensures { MatchOption result (NoneFits processors outcomes.now) (IsBestQuantum processors outcomes.now) }
{
    let mut best = None;
    for next in 0..outcomes.len() {
        if fits(processors, outcomes[next]) {
            best = Some(better(outcomes, processors, best, next));
        }
    }
    best
}
