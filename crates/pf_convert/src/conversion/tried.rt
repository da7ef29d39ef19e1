ghost use Rattle.std.specs.Prelude.{◌≡◌, ◌≤◌, ◌<◌, ⊤, All, IfOk, MatchOption, length, map, min};
ghost use Rattle.pf_weight.specs.declared.task.TheConstants.{LARGEST_TASK};
ghost use Rattle.pf_convert.specs.declared.quantum.TheConstants.{LONGEST_QUANTUM};
ghost use Rattle.pf_convert.specs.Slots.{IsTimed};
ghost use Rattle.pf_convert.specs.Conversion.Planned.{AreBasesOrNone};
ghost use Rattle.pf_convert.specs.Conversion.Series.{ArePlanned, ArePlannedFor, AreTried, HoldAll, IsEnough, IsPlannedUnder, is_enough, outcome_of, shortest_time};
ghost use Rattle.pf_convert.specs.Quotients.{all_quotients};

use crate::best_quantum::best_quantum;
use crate::conversion::planned::Planned;
use crate::conversion::series::{outcomes_of, plan_all};
use crate::conversion::times::least_work_of;
use crate::divided::Divided;
use crate::list::listed::Listed;
use crate::outcome::Outcome;
use crate::quantum::LONGEST_QUANTUM;
use crate::quotients::quotients;
use crate::terms::Terms;
use crate::work::BILLION;
use std::alloc::{AllocError, Global};

/// What each of these quanta gives these tasks, or where there are none, each of those that are tried: quotients of the shortest
/// time, the longest first; none where no quotient is above what a switch takes.
///
/// # Errors
///
/// Where memory is refused.
pub fn plan_quanta(
    alloc: Global,
    terms: Terms,
    quanta: &[u64],
    tasks: &[Listed],
) -> Result<Vec<Planned>, AllocError>
    requires longer { All (λ q. terms.switch < q) quanta.now }
    requires short { All (λ q. q ≤ LONGEST_QUANTUM) quanta.now }
    requires timed { All (λ t. IsTimed t.times) tasks.now }
    requires few { length tasks.now ≤ LARGEST_TASK }
    ensures planned { IfOk result (λ all. ArePlannedFor terms quanta.now tasks.now all.items) }
    ensures holds { IfOk result (λ all. HoldAll all.items) }
{
    let mut bases = Vec::new(alloc);
    if quanta.is_empty() {
        return plan_tried(alloc, terms, tasks, &mut bases);
    }
    let mut known = Vec::new(alloc);
    plan_all(alloc, terms, quanta, tasks, &mut bases, &mut known)
}

/// What each quantum gives that is tried.
#[tactic(auto, using(crate::proofs::ConversionLemmas::Known::all_known))]
fn plan_tried(
    alloc: Global,
    terms: Terms,
    tasks: &[Listed],
    bases: &mut Vec<Divided>,
) -> Result<Vec<Planned>, AllocError>
    requires timed { All (λ t. IsTimed t.times) tasks.now }
    requires few { length tasks.now ≤ LARGEST_TASK }
    requires bases { AreBasesOrNone bases.old.items }
    ensures planned { IfOk result (λ all. AreTried terms tasks.now all.items) }
    ensures holds { IfOk result (λ all. HoldAll all.items) }
{
    let time = shortest_time(tasks);
    let lengths = quotients(true, terms.switch, time);
    let mut known = Vec::new(alloc);
    let whole = plan_all(alloc, terms, lengths.all(), tasks, bases, &mut known)?;
    if is_enough(alloc, terms, tasks, &whole)? {
        return Ok(whole);
    }
    plan_further(alloc, terms, time, tasks, bases, whole)
}

/// What each quotient of the time gives, of which those that leave no rest have been planned, the longest first.
#[tactic(auto, using(crate::proofs::ConversionLemmas::Known::reversed))]
fn plan_further(
    alloc: Global,
    terms: Terms,
    time: u64,
    tasks: &[Listed],
    bases: &mut Vec<Divided>,
    whole: Vec<Planned>,
) -> Result<Vec<Planned>, AllocError>
    requires time { time ≤ LONGEST_QUANTUM }
    requires timed { All (λ t. IsTimed t.times) tasks.now }
    requires few { length tasks.now ≤ LARGEST_TASK }
    requires bases { AreBasesOrNone bases.old.items }
    requires known { All (IsPlannedUnder terms tasks.now) whole.items }
    ensures planned { IfOk result (λ all. ArePlanned terms tasks.now (all_quotients terms.switch time) all.items) }
    ensures holds { IfOk result (λ all. HoldAll all.items) }
{
    let lengths = quotients(false, terms.switch, time);
    let mut known = whole;
    known.reverse();
    plan_all(alloc, terms, lengths.all(), tasks, bases, &mut known)
}

/// Whether these quanta are enough: one fits the processors that are given, or the best needs as few as could carry the work.
fn is_enough(
    alloc: Global,
    terms: Terms,
    tasks: &[Listed],
    all: &[Planned],
) -> Result<bool, AllocError>
    requires timed { All (λ t. IsTimed t.times) tasks.now }
    requires few { length tasks.now ≤ LARGEST_TASK }
    ensures { IfOk result (IsEnough terms tasks.now (map outcome_of all.now)) }
{
    let work = least_work_of(alloc, tasks)?;
    let outcomes = outcomes_of(alloc, all)?;
    let best = best_quantum(&outcomes, terms.processors);
    Ok(best_is_enough(terms, work, &outcomes, best))
}

/// Whether the best of some quanta is, where the tasks take so many billionths of a processor.
fn best_is_enough(terms: Terms, work: u128, outcomes: &[Outcome], best: Option<usize>) -> bool
    requires { MatchOption best ⊤ (λ i. i < length outcomes.now) }
    ensures { result ≡ is_enough terms work outcomes.now best }
{
    let Some(place) = best else {
        return false;
    };
    if terms.processors.is_some() {
        return true;
    }
    u128::from(outcomes[place].needed.unwrap_or(0)) <= work.div_ceil(BILLION)
}

/// The shortest time that a job is due after, and a second at most.
pub fn shortest_time(tasks: &[Listed]) -> u64
    ensures value { result ≡ shortest_time tasks.now }
    ensures short { result ≤ LONGEST_QUANTUM }
{
    let mut shortest = LONGEST_QUANTUM;
    for task in tasks {
        shortest = lesser(shortest, task.times.due());
    }
    shortest
}

/// The lesser one.
fn lesser(a: u64, b: u64) -> u64
    ensures { result ≡ min a b }
{
    a.min(b)
}
