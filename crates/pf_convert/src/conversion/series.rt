ghost use Rattle.std.specs.Prelude.{List, ◌≡◌, ◌≤◌, ◌<◌, All, IfOk, IfSome, OnOk, length as list_length, map};
ghost use Rattle.pf_weight.specs.declared.task.TheConstants.{LARGEST_TASK};
ghost use Rattle.pf_convert.specs.declared.list.listed.Listed.{Listed};
ghost use Rattle.pf_convert.specs.declared.terms.Terms.{Terms};
ghost use Rattle.pf_convert.specs.declared.quantum.TheConstants.{LONGEST_QUANTUM};
ghost use Rattle.pf_convert.specs.Slots.{IsQuantum, IsTimed};
ghost use Rattle.pf_convert.specs.Conversion.Planned.{AreBasesOrNone, HoldsPlan, IsPlannedAt};
ghost use Rattle.pf_convert.specs.Conversion.Series.{ArePlanned, HoldAll, IsPlannedUnder, outcome_of, quantum_of};

use crate::conversion::planned::Planned;
use crate::divided::Divided;
use crate::list::listed::Listed;
use crate::outcome::Outcome;
use crate::quantum::Quantum;
use crate::terms::Terms;
use std::alloc::{AllocError, Global};

/// What each of several quanta gives these tasks. What some of them give is known, the shortest first: it is taken from there.
///
/// # Errors
///
/// Where memory is refused.
pub fn plan_all(
    alloc: Global,
    terms: Terms,
    quanta: &[u64],
    tasks: &[Listed],
    bases: &mut Vec<Divided>,
    known: &mut Vec<Planned>,
) -> Result<Vec<Planned>, AllocError>
    requires longer { All (λ q. terms.switch < q) quanta.now }
    requires short { All (λ q. q ≤ LONGEST_QUANTUM) quanta.now }
    requires timed { All (λ t. IsTimed t.times) tasks.now }
    requires few { list_length tasks.now ≤ LARGEST_TASK }
    requires bases { AreBasesOrNone bases.old.items }
    requires known { All (IsPlannedUnder terms tasks.now) known.old.items }
    ensures planned { IfOk result (λ all. ArePlanned terms tasks.now quanta.now all.items) }
    ensures holds { IfOk result (λ all. HoldAll all.items) }
    ensures bases { OnOk result (AreBasesOrNone bases.new.items) }
{
    let mut all = Vec::new(alloc);
    for length in quanta {
        let planned = plan_next(alloc, terms, *length, tasks, bases, known)?;
        all.push(planned)?;
    }
    Ok(all)
}

/// What a quantum of this length gives, taken from what is known where that stands last there.
#[tactic(auto, using(crate::proofs::ConversionLemmas::Known::known_at))]
fn plan_next(
    alloc: Global,
    terms: Terms,
    length: u64,
    tasks: &[Listed],
    bases: &mut Vec<Divided>,
    known: &mut Vec<Planned>,
) -> Result<Planned, AllocError>
    requires quantum { IsQuantum (quantum_of terms.switch length) }
    requires timed { All (λ t. IsTimed t.times) tasks.now }
    requires few { list_length tasks.now ≤ LARGEST_TASK }
    requires bases { AreBasesOrNone bases.old.items }
    requires known { All (IsPlannedUnder terms tasks.now) known.old.items }
    ensures planned { IfOk result (IsPlannedAt (quantum_of terms.switch length) terms.arrivals tasks.now) }
    ensures holds { IfOk result (λ planned. HoldsPlan planned.plan) }
    ensures bases { OnOk result (AreBasesOrNone bases.new.items) }
    ensures known { OnOk result (All (IsPlannedUnder terms tasks.now) known.new.items) }
{
    if let Some(planned) = take_known(known, length) {
        return Ok(planned);
    }
    let quantum = Quantum {
        length,
        switch: terms.switch,
    };
    Planned::of(alloc, bases, quantum, terms.arrivals, tasks)
}

/// Takes the last of what is known, where its quantum has this length.
fn take_known(known: &mut Vec<Planned>, length: u64) -> Option<Planned>
    ensures long { IfSome result (λ planned. planned.quantum.length ≡ length) }
    ensures taken { (terms : Terms) (tasks : List Listed) → All (IsPlannedUnder terms tasks) known.old.items → IfSome result (IsPlannedUnder terms tasks) }
    ensures left { (terms : Terms) (tasks : List Listed) → All (IsPlannedUnder terms tasks) known.old.items → All (IsPlannedUnder terms tasks) known.new.items }
{
    match known.last() {
        Some(planned) if planned.quantum.length == length => known.pop(),
        _ => None,
    }
}

/// How long each quantum is, how many processors it needs, and how many faults it has.
pub fn outcomes_of(alloc: Global, all: &[Planned]) -> Result<Vec<Outcome>, AllocError>
    ensures { IfOk result (λ outcomes. outcomes.items ≡ map outcome_of all.now) }
{
    let mut outcomes = Vec::new(alloc);
    for planned in all {
        outcomes.push(outcome_of(planned))?;
    }
    Ok(outcomes)
}

/// How long a quantum is, how many processors it needs, and how many faults it has.
fn outcome_of(planned: &Planned) -> Outcome
    ensures { result ≡ outcome_of planned.now }
{
    Outcome {
        quantum: planned.quantum.length,
        needed: planned.needed,
        faults: planned.faults.len(),
    }
}
