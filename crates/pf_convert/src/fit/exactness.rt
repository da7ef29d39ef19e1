ghost use Rattle.std.specs.Prelude.{◌≡◌, not};
ghost use Rattle.std.specs.List.{list_all};
ghost use Rattle.pf_convert.specs.Fit.Exactness.{aligned_exactness, is_drifting, is_due_early, is_of_divisors};

use crate::fit::shown_task::ShownTask;
use crate::margins::least_period::LeastPeriod;
use crate::words::arrivals::Arrivals;

/// Whether no schedule in quanta of the plan's length serves the tasks beyond its margins, and else the first reason why one
/// might.
#[derive(Clone, Copy)]
pub enum Exactness {
    /// None does.
    Exact,
    /// Jobs arrive at any time, for which up to two quanta of each time are kept.
    AnyArrivals,
    /// A job is due before the next one arrives, and counts as if jobs came so often.
    EarlyDeadlines,
    /// A period was rounded down to a divisor of a base.
    CommonBase,
    /// A time was rounded down to whole quanta.
    WholeQuanta,
}

impl Exactness {
    ghost use Rattle.std.specs.Prelude.{◌≡◌};
    ghost use Rattle.pf_convert.specs.Fit.Exactness.{exactness_of, is_exact};

    /// That of the margins of a plan of these tasks in quanta of this length, whose base is, or is not, the least common multiple
    /// of the periods.
    pub fn of(arrivals: Arrivals, quantum: u64, exact: bool, tasks: &[ShownTask<'_>]) -> Self
        ensures { result ≡ exactness_of arrivals quantum exact tasks.now }
    {
        match arrivals {
            Arrivals::Any => Exactness::AnyArrivals,
            Arrivals::Aligned => aligned_exactness(quantum, exact, tasks),
        }
    }

    /// Whether they are exact.
    pub fn is_exact(self) -> bool
        ensures { result ≡ is_exact self }
    {
        match self {
            Exactness::Exact => true,
            Exactness::AnyArrivals
            | Exactness::EarlyDeadlines
            | Exactness::CommonBase
            | Exactness::WholeQuanta => false,
        }
    }
}

/// That of a plan whose jobs arrive as slots begin.
fn aligned_exactness(quantum: u64, exact: bool, tasks: &[ShownTask<'_>]) -> Exactness
    ensures { result ≡ aligned_exactness quantum exact tasks.now }
{
    if !are_due_late(tasks) {
        return Exactness::EarlyDeadlines;
    }
    if !(exact && are_free(tasks)) {
        return Exactness::CommonBase;
    }
    if !are_steady(quantum, tasks) {
        return Exactness::WholeQuanta;
    }
    Exactness::Exact
}

/// Whether no job is due before the next one arrives.
fn are_due_late(tasks: &[ShownTask<'_>]) -> bool
    ensures { result ≡ list_all (λ t. not (is_due_early t)) tasks.now }
{
    for task in tasks {
        if task.times.due() < task.times.every {
            return false;
        }
    }
    true
}

/// Whether a least period is one of the base's divisors.
fn is_of_divisors(least: LeastPeriod) -> bool
    ensures { result ≡ is_of_divisors least }
{
    match least {
        LeastPeriod::NoRoom | LeastPeriod::OfAll(_) => false,
        LeastPeriod::OfDivisors(_) => true,
    }
}

/// Whether no least period is one of the base's divisors.
fn are_free(tasks: &[ShownTask<'_>]) -> bool
    ensures { result ≡ list_all (λ t. not (is_of_divisors t.margin.least)) tasks.now }
{
    for task in tasks {
        if is_of_divisors(task.margin.least) {
            return false;
        }
    }
    true
}

/// Whether a task's windows are shorter than the time between its jobs.
pub fn is_drifting(quantum: u64, task: ShownTask<'_>) -> bool
    ensures { result ≡ is_drifting quantum task.entry }
{
    u128::from(task.slots.period) * u128::from(quantum) < u128::from(task.times.every)
}

/// Whether that is so of none.
fn are_steady(quantum: u64, tasks: &[ShownTask<'_>]) -> bool
    ensures { result ≡ list_all (λ t. not (is_drifting quantum t)) tasks.now }
{
    for task in tasks {
        if is_drifting(quantum, *task) {
            return false;
        }
    }
    true
}
