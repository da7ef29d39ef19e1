ghost use Rattle.std.specs.Prelude.{◌≡◌, ◌≤◌, All, IfOk, OnOk, length};
ghost use Rattle.pf_weight.specs.declared.task.TheConstants.{LARGEST_TASK};
ghost use Rattle.pf_convert.specs.Slots.{IsQuantum, IsSlotted, IsTimed};
ghost use Rattle.pf_convert.specs.Smooth.{AreSmoothBases};
ghost use Rattle.pf_convert.specs.Conversion.Planned.{AreBasesOrNone, HoldsPlan, IsPlanned, IsPlannedAt, IsPlannedOf, NeedsFor};

use crate::conversion::slots::Slots;
use crate::divided::Divided;
use crate::list::listed::Listed;
use crate::plan::Plan;
use crate::plan_fault::PlanFault;
use crate::planning::{exact_plan, needed_processors, rounded_plan};
use crate::quantum::Quantum;
use crate::slotted::Slotted;
use crate::smooth::smooth_bases;
use crate::words::arrivals::Arrivals;
use std::alloc::{AllocError, Global};

/// What a quantum gives.
#[derive(Drop)]
pub struct Planned {
    /// The quantum, and what a switch takes of it.
    pub quantum: Quantum,
    /// The plan, none where there are faults.
    pub plan: Option<Plan>,
    /// How many processors the plan needs.
    pub needed: Option<u64>,
    /// Its faults.
    pub faults: Vec<PlanFault>,
}

impl Planned {
    /// What a quantum gives these tasks, where their jobs arrive so. The bases are found where they are needed and there are none
    /// yet.
    ///
    /// # Errors
    ///
    /// Where memory is refused.
    pub fn of(
        alloc: Global,
        bases: &mut Vec<Divided>,
        quantum: Quantum,
        arrivals: Arrivals,
        tasks: &[Listed],
    ) -> Result<Planned, AllocError>
        requires bases { AreBasesOrNone bases.old.items }
        requires quantum { IsQuantum quantum }
        requires timed { All (λ t. IsTimed t.times) tasks.now }
        requires few { length tasks.now ≤ LARGEST_TASK }
        ensures planned { IfOk result (IsPlannedAt quantum arrivals tasks.now) }
        ensures holds { IfOk result (λ planned. HoldsPlan planned.plan) }
        ensures bases { OnOk result (AreBasesOrNone bases.new.items) }
    {
        let slots = Slots::of(alloc, quantum, arrivals, tasks)?;
        if slots.faults.len() > 0 {
            return Ok(Planned {
                quantum,
                plan: None,
                needed: None,
                faults: slots.faults,
            });
        }
        Planned::of_slots(alloc, bases, quantum, &slots.tasks)
    }

    /// What a quantum gives tasks that all have slots.
    fn of_slots(
        alloc: Global,
        bases: &mut Vec<Divided>,
        quantum: Quantum,
        tasks: &[Slotted],
    ) -> Result<Planned, AllocError>
        requires bases { AreBasesOrNone bases.old.items }
        requires slotted { All IsSlotted tasks.now }
        requires few { length tasks.now ≤ LARGEST_TASK }
        ensures planned { IfOk result (IsPlannedOf quantum tasks.now) }
        ensures holds { IfOk result (λ planned. HoldsPlan planned.plan) }
        ensures bases { OnOk result (AreBasesOrNone bases.new.items) }
    {
        let mut faults = Vec::new(alloc);
        let plan = plan_of(alloc, bases, tasks)?;
        let needed = needed_for(&plan);
        if plan.is_none() {
            faults.push(PlanFault::NoBase)?;
        }
        Ok(Planned {
            quantum,
            plan,
            needed,
            faults,
        })
    }
}

/// How many processors a plan needs.
fn needed_for(plan: &Option<Plan>) -> Option<u64>
    requires { HoldsPlan plan.now }
    ensures { NeedsFor plan.now result }
{
    match plan {
        Some(plan) => Some(needed_processors(plan.base, plan.load)),
        None => None,
    }
}

/// The plan of tasks in slots: over the least common multiple of their periods, or else over the best base.
#[tactic(auto, using(crate::proofs::ConversionLemmas::Holding::exact_holds, crate::proofs::ConversionLemmas::Holding::rounded_plan_holds))]
fn plan_of(
    alloc: Global,
    bases: &mut Vec<Divided>,
    tasks: &[Slotted],
) -> Result<Option<Plan>, AllocError>
    requires bases { AreBasesOrNone bases.old.items }
    requires slotted { All IsSlotted tasks.now }
    requires few { length tasks.now ≤ LARGEST_TASK }
    ensures plan { IfOk result (IsPlanned tasks.now) }
    ensures holds { IfOk result HoldsPlan }
    ensures bases { OnOk result (AreBasesOrNone bases.new.items) }
{
    if let Some(plan) = exact_plan(alloc, tasks)? {
        return Ok(Some(plan));
    }
    find_bases(alloc, bases)?;
    rounded_plan(alloc, bases, tasks)
}

/// Finds the bases, where there are none yet.
fn find_bases(alloc: Global, bases: &mut Vec<Divided>) -> Result<(), AllocError>
    requires { AreBasesOrNone bases.old.items }
    ensures { OnOk result (AreSmoothBases bases.new.items) }
{
    if bases.is_empty() {
        *bases = smooth_bases(alloc)?;
    }
    Ok(())
}
