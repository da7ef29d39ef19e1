ghost use Rattle.std.specs.Prelude.{◌≡◌, ◌≤◌, All, length};
ghost use Rattle.pf_weight.specs.declared.task.TheConstants.{LARGEST_TASK};
ghost use Rattle.pf_convert.specs.Outcomes.{billionths_of, least_billionths_of};
ghost use Rattle.pf_convert.specs.Slots.{IsTimed};

use crate::timed::Timed;

/// Billionths in a whole.
pub const BILLION: u128 = 1_000_000_000;

/// The part of a processor that the tasks' work takes, in billionths. Each task's is rounded up once.
pub fn work_in_billionths(tasks: &[Timed]) -> u128
    requires timed { All IsTimed tasks.now }
    requires few { length tasks.now ≤ LARGEST_TASK }
    ensures { result ≡ billionths_of tasks.now }
{
    let mut work = 0;
    for task in tasks {
        work += (u128::from(task.work) * BILLION).div_ceil(u128::from(task.every));
    }
    work
}

/// The same with each task's rounded down: no plan asks for less.
pub fn least_work_in_billionths(tasks: &[Timed]) -> u128
    requires timed { All IsTimed tasks.now }
    requires few { length tasks.now ≤ LARGEST_TASK }
    ensures { result ≡ least_billionths_of tasks.now }
{
    let mut work = 0;
    for task in tasks {
        work += u128::from(task.work) * BILLION / u128::from(task.every);
    }
    work
}
