ghost use Rattle.std.specs.Prelude.{◌≤◌, IfOk, All};
ghost use Rattle.pf_convert.specs.Smooth.{AreSmoothBases, AreSevenSmooth, ArePowered, ArePowersOf};

use crate::divided::Divided;
use crate::divisors::divisors_of;
use pf_weight::base::LARGEST_BASE;
use std::alloc::{AllocError, Global};

/// The products of the number and the powers of the factor, up to the greatest base.
fn powers_of(alloc: Global, number: u64, factor: u64) -> Result<Vec<u64>, AllocError>
    requires some { 1 ≤ number }
    requires factor { 2 ≤ factor }
    requires low { factor ≤ 7 }
    ensures { IfOk result (λ v. ArePowersOf number factor v.items) }
{
    let mut powers = Vec::new(alloc);
    let mut power = number;
    'powers: while power <= LARGEST_BASE {
        powers.push(power)?;
        power *= factor;
    }
    Ok(powers)
}

/// The products of one of the numbers and a power of the factor, up to the greatest base.
fn times_powers(alloc: Global, numbers: &[u64], factor: u64) -> Result<Vec<u64>, AllocError>
    requires some { All (λ n. 1 ≤ n) numbers.now }
    requires factor { 2 ≤ factor }
    requires low { factor ≤ 7 }
    ensures { IfOk result (λ v. ArePowered numbers.now factor v.items) }
{
    let mut products = Vec::new(alloc);
    for number in numbers {
        let powers = powers_of(alloc, *number, factor)?;
        products.extend_from_slice(&powers)?;
    }
    Ok(products)
}

/// The bases without a prime factor above 7, in no order.
fn seven_smooth(alloc: Global) -> Result<Vec<u64>, AllocError>
    ensures { IfOk result (λ v. AreSevenSmooth v.items) }
{
    let twos = times_powers(alloc, &[1], 2)?;
    let threes = times_powers(alloc, &twos, 3)?;
    let fives = times_powers(alloc, &threes, 5)?;
    let sevens = times_powers(alloc, &fives, 7)?;
    Ok(sevens)
}

/// The bases without a prime factor above 7, of which there are 5,260, each with its divisors.
///
/// # Errors
///
/// Where memory is refused.
pub fn smooth_bases(alloc: Global) -> Result<Vec<Divided>, AllocError>
    ensures { IfOk result (λ v. AreSmoothBases v.items) }
{
    let numbers = seven_smooth(alloc)?;
    let mut bases = Vec::new(alloc);
    for number in &numbers {
        let base = *number;
        let divisors = divisors_of(alloc, base)?;
        bases.push(Divided { base, divisors })?;
    }
    Ok(bases)
}
