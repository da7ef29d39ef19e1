ghost use Rattle.std.specs.Prelude.{◌≡◌, ◌≤◌, All, IfOk, length, map};
ghost use Rattle.pf_weight.specs.declared.task.TheConstants.{LARGEST_TASK};
ghost use Rattle.pf_convert.specs.Outcomes.{billionths_of, least_billionths_of};
ghost use Rattle.pf_convert.specs.Slots.{IsTimed};

use crate::list::listed::Listed;
use crate::timed::Timed;
use crate::work::{least_work_in_billionths, work_in_billionths};
use std::alloc::{AllocError, Global};

/// The part of a processor that tasks take, in billionths, each task's rounded up.
///
/// # Errors
///
/// Where memory is refused.
pub fn work_of(alloc: Global, tasks: &[Listed]) -> Result<u128, AllocError>
    requires timed { All (λ t. IsTimed t.times) tasks.now }
    requires few { length tasks.now ≤ LARGEST_TASK }
    ensures { IfOk result (λ work. work ≡ billionths_of (map (λ t. t.times) tasks.now)) }
{
    let times = times_of(alloc, tasks)?;
    Ok(work_in_billionths(&times))
}

/// The same with each task's rounded down.
///
/// # Errors
///
/// Where memory is refused.
pub fn least_work_of(alloc: Global, tasks: &[Listed]) -> Result<u128, AllocError>
    requires timed { All (λ t. IsTimed t.times) tasks.now }
    requires few { length tasks.now ≤ LARGEST_TASK }
    ensures { IfOk result (λ work. work ≡ least_billionths_of (map (λ t. t.times) tasks.now)) }
{
    let times = times_of(alloc, tasks)?;
    Ok(least_work_in_billionths(&times))
}

/// The times of tasks.
///
/// # Errors
///
/// Where memory is refused.
pub fn times_of(alloc: Global, tasks: &[Listed]) -> Result<Vec<Timed>, AllocError>
    ensures { IfOk result (λ times. times.items ≡ map (λ t. t.times) tasks.now) }
{
    let mut times = Vec::new(alloc);
    for task in tasks {
        times.push(task.times)?;
    }
    Ok(times)
}
