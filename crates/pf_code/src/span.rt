ghost use Rattle.std.specs.Prelude.{◌≡◌, ◌≤◌, ◌^◌, true};
ghost use Rattle.std.specs.Int.{IsGcd};
ghost use Rattle.pf_weight.specs.declared.base.TheConstants.{LARGEST_BASE};
ghost use Rattle.pf_code.specs.Span.{IsLeastMultiple, are_owed_whole, least_span};

use pf_tally::admitted::Admitted;
use pf_weight::weight::Weight;

/// The greatest common divisor of two numbers.
fn greatest_common_divisor(a: u64, b: u64) -> u64
    ensures { IsGcd a b result }
{
    let mut divisor = a;
    let mut rest = b;
    while rest != 0 {
        let next = divisor % rest;
        divisor = rest;
        rest = next;
    }
    divisor
}

/// The least multiple of so many slots in which a task of this weight is owed whole quanta.
fn least_multiple(span: u64, weight: Weight) -> u64
    requires some { 1 ≤ span }
    requires small { span ≤ LARGEST_BASE }
    ensures { IsLeastMultiple span weight result }
{
    let period = weight.period();
    let owed = weight.cost() * span;
    span * (period / greatest_common_divisor(owed, period))
}

/// The least number of slots, from 1, in which each of these tasks is owed whole quanta. Each is in as many slots as the base.
pub(crate) fn least_span(base: u64, tasks: &[Admitted]) -> u64
    requires some { 1 ≤ base }
    requires small { base ≤ LARGEST_BASE }
    requires whole { are_owed_whole tasks.now base ≡ true }
    ensures { result ≡ least_span base tasks.now }
{
    let mut span = 1;
    for task in tasks {
        span = least_multiple(span, task.weight);
    }
    span
}
