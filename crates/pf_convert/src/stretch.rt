ghost use Rattle.std.specs.Prelude.{◌≡◌, ◌+◌, ◌-◌, ◌^◌, ◌<◌, ◌≤◌, length, slice_index};
ghost use Rattle.pf_convert.specs.Rounding.{rounded};
ghost use Rattle.pf_convert.specs.Smooth.{IsDivided};
ghost use Rattle.pf_convert.specs.Stretches.{IsStretch};

use crate::divided::Divided;
use crate::divisors::last_within;

/// Periods that are rounded down to the same divisor of a base.
#[derive(Clone, Copy)]
pub struct Stretch {
    /// The divisor, which is the shortest of them.
    pub divisor: u64,
    /// Longer than each of them.
    pub end: u64,
    /// The base over the divisor.
    pub share: u64,
    /// Where the divisor stands among those of the base.
    pub index: usize,
}

/// The divisor after one, or the greatest number where it is the last.
fn next_divisor(divisors: &[u64], index: usize) -> u64
    requires { index < length divisors.now }
    ensures next { index + 1 < length divisors.now → result ≡ slice_index divisors.now (index + 1) }
    ensures last { length divisors.now ≡ index + 1 → result ≡ 2 ^ 64 - 1 }
{
    if index + 1 < divisors.len() {
        divisors[index + 1]
    } else {
        u64::MAX
    }
}

/// The periods that are rounded down as this one is. It looks at the divisors from one on that is no longer.
fn stretch_from(divided: &Divided, from: usize, period: u64) -> Stretch
    requires divided { IsDivided divided.now }
    requires there { from < length divided.now.divisors.items }
    requires within { slice_index divided.now.divisors.items from ≤ period }
    ensures stretch { IsStretch divided.now result }
    ensures divisor { result.divisor ≡ rounded divided.now.base period }
{
    let index = last_within(&divided.divisors, from, period);
    let divisor = divided.divisors[index];
    Stretch {
        divisor,
        end: next_divisor(&divided.divisors, index),
        share: divided.base / divisor,
        index,
    }
}

/// The periods that are rounded down as 1 is.
pub fn first_stretch(divided: &Divided) -> Stretch
    requires { IsDivided divided.now }
    ensures stretch { IsStretch divided.now result }
    ensures divisor { result.divisor ≡ rounded divided.now.base 1 }
{
    stretch_from(divided, 0, 1)
}

/// The periods that are rounded down as this one is. Where it is none of these but longer, it looks only at the divisors above
/// theirs.
pub fn stretch_of(divided: &Divided, last: Stretch, period: u64) -> Stretch
    requires divided { IsDivided divided.now }
    requires last { IsStretch divided.now last }
    requires some { 1 ≤ period }
    ensures stretch { IsStretch divided.now result }
    ensures divisor { result.divisor ≡ rounded divided.now.base period }
{
    if period < last.divisor {
        stretch_from(divided, 0, period)
    } else if period < last.end {
        last
    } else {
        stretch_from(divided, last.index, period)
    }
}
