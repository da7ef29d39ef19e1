ghost use Rattle.std.specs.Prelude.{◌≡◌, ◌+◌, ◌<◌, ◌≤◌, IfOk, OnOk, length, slice_index};
ghost use Rattle.std.specs.List.Sorted.{IsNonDecreasing};
ghost use Rattle.pf_weight.specs.declared.base.TheConstants.{LARGEST_BASE};
ghost use Rattle.pf_convert.specs.Smooth.{AreDivisors, with_pair};
ghost use Rattle.pf_convert.specs.Rounding.{rounded};

use std::alloc::{AllocError, Global};

/// Puts the number and its counterpart after the divisors, where it divides.
fn push_pair(divisors: &mut Vec<u64>, number: u64, low: u64) -> Result<(), AllocError>
    requires { 1 ≤ low }
    ensures { OnOk result (divisors.new.items ≡ with_pair number low divisors.old.items) }
{
    if number % low == 0 {
        divisors.push(low)?;
        divisors.push(number / low)?;
    }
    Ok(())
}

/// The divisors of a number, rising. It looks at the numbers up to the square root.
///
/// # Errors
///
/// Where memory is refused.
pub fn divisors_of(alloc: Global, number: u64) -> Result<Vec<u64>, AllocError>
    requires some { 1 ≤ number }
    requires within { number ≤ LARGEST_BASE }
    ensures divisors { IfOk result (λ v. AreDivisors number v.items) }
    ensures rising { IfOk result (λ v. IsNonDecreasing v.items) }
{
    let mut divisors = Vec::new(alloc);
    for low in 1..number.isqrt() + 1 {
        push_pair(&mut divisors, number, low)?;
    }
    divisors.sort_unstable();
    Ok(divisors)
}

/// The last of the divisors that is at most the period, as an index. It looks at those from one on that is so.
pub fn last_within(divisors: &[u64], from: usize, period: u64) -> usize
    requires there { from < length divisors.now }
    requires within { slice_index divisors.now from ≤ period }
    ensures there { result < length divisors.now }
    ensures within { slice_index divisors.now result ≤ period }
    ensures last { result + 1 < length divisors.now → period < slice_index divisors.now (result + 1) }
{
    let mut index = from;
    while index + 1 < divisors.len() && divisors[index + 1] <= period {
        index += 1;
    }
    index
}

/// The greatest divisor of a base that is at most the period.
pub fn rounded_down(base: u64, divisors: &[u64], period: u64) -> u64
    requires some { 1 ≤ period }
    requires divisors { AreDivisors base divisors.now }
    requires rising { IsNonDecreasing divisors.now }
    ensures { result ≡ rounded base period }
{
    divisors[last_within(divisors, 0, period)]
}
