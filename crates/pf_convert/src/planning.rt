ghost use Rattle.std.specs.Prelude.{◌≡◌, ◌≤◌, IfOk, MatchOption, All, length, map};
ghost use Rattle.std.specs.List.Sorted.{IsNonDecreasing};
ghost use Rattle.pf_weight.specs.declared.base.TheConstants.{LARGEST_BASE};
ghost use Rattle.pf_weight.specs.declared.task.TheConstants.{LARGEST_TASK};
ghost use Rattle.pf_convert.specs.Multiples.{IsCommon, HasNoCommon};
ghost use Rattle.pf_convert.specs.Plans.{IsExact, IsRounded, IsNeeded, rounded_task};
ghost use Rattle.pf_convert.specs.Rounding.{HasNoBase, load_over};
ghost use Rattle.pf_convert.specs.Slots.{IsSlotted};
ghost use Rattle.pf_convert.specs.Smooth.{AreDivisors, AreSmoothBases};

use crate::best_base::best_base;
use crate::divided::Divided;
use crate::divisors::{divisors_of, rounded_down};
use crate::multiples::least_common;
use crate::plan::Plan;
use crate::slotted::Slotted;
use std::alloc::{AllocError, Global};

/// What the tasks ask for over a base that each of their periods divides, in units of 1/base.
fn exact_load(base: u64, tasks: &[Slotted]) -> u64
    requires within { base ≤ LARGEST_BASE }
    requires common { IsCommon tasks.now base }
    requires slotted { All IsSlotted tasks.now }
    requires few { length tasks.now ≤ LARGEST_TASK }
    ensures { result ≡ load_over base tasks.now }
{
    let mut load = 0;
    for task in tasks {
        load += task.cost * (base / task.period);
    }
    load
}

/// The plan over the least common multiple of the periods, none where it is above the greatest base.
///
/// # Errors
///
/// Where memory is refused.
pub fn exact_plan(alloc: Global, tasks: &[Slotted]) -> Result<Option<Plan>, AllocError>
    requires slotted { All IsSlotted tasks.now }
    requires few { length tasks.now ≤ LARGEST_TASK }
    ensures { IfOk result (λ plan. MatchOption plan (HasNoCommon tasks.now) (IsExact tasks.now)) }
{
    let Some(base) = least_common(tasks) else {
        return Ok(None);
    };
    Ok(Some(Plan {
        base,
        exact: true,
        load: exact_load(base, tasks),
        tasks: Vec::from_slice(alloc, tasks)?,
    }))
}

/// The tasks with each period rounded down to a divisor of the base.
fn rounded_tasks(
    alloc: Global,
    base: u64,
    divisors: &[u64],
    tasks: &[Slotted],
) -> Result<Vec<Slotted>, AllocError>
    requires divisors { AreDivisors base divisors.now }
    requires rising { IsNonDecreasing divisors.now }
    requires slotted { All IsSlotted tasks.now }
    ensures { IfOk result (λ v. v.items ≡ map (rounded_task base) tasks.now) }
{
    let mut rounded = Vec::new(alloc);
    for task in tasks {
        let period = rounded_down(base, divisors, task.period);
        rounded.push(Slotted { period, ..*task })?;
    }
    Ok(rounded)
}

/// The plan over the best base for tasks whose periods have no common multiple that is a base, none where no base holds
/// the tasks.
///
/// # Errors
///
/// Where memory is refused.
pub fn rounded_plan(
    alloc: Global,
    bases: &[Divided],
    tasks: &[Slotted],
) -> Result<Option<Plan>, AllocError>
    requires bases { AreSmoothBases bases.now }
    requires none { HasNoCommon tasks.now }
    requires slotted { All IsSlotted tasks.now }
    requires few { length tasks.now ≤ LARGEST_TASK }
    ensures { IfOk result (λ plan. MatchOption plan (HasNoBase tasks.now) (IsRounded tasks.now)) }
{
    let Some(best) = best_base(alloc, bases, tasks)? else {
        return Ok(None);
    };
    let divisors = divisors_of(alloc, best.base)?;
    let rounded = rounded_tasks(alloc, best.base, &divisors, tasks)?;
    Ok(Some(Plan {
        base: best.base,
        exact: false,
        load: best.load,
        tasks: rounded,
    }))
}

/// How many processors carry the load, of which there is one at least; above 64 there may be no such desk.
pub fn needed_processors(base: u64, load: u64) -> u64
    requires { 1 ≤ base }
    ensures { IsNeeded base load result }
{
    load.div_ceil(base).max(1)
}
