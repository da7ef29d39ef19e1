ghost use Rattle.std.specs.Prelude.{◌≡◌, ◌≤◌, ◌<◌, ◌*◌, ◌/◌, ◌++◌, ◌&&◌, ℕ, true, IfErr, IfOk, OnOk};
ghost use Rattle.pf_notes.specs.Periods.{above_text, base_text, below_text, common_base, divides, divides_both, last_below, period_above, period_below, period_hint};
ghost use Rattle.pf_weight.specs.Share.{IsBase};

use crate::words::push_word;
use pf_weight::base::{Base, LARGEST_BASE};
use std::alloc::AllocError;

/// A quotient, 0 where it would be by 0.
pub(crate) fn quotient(a: u64, b: u64) -> u64
    ensures { result ≡ a / b }
{
    if b == 0 { 0 } else { a / b }
}

/// Whether k divides both.
fn divides_both(a: u64, b: u64, k: u64) -> bool
    requires { 1 ≤ k }
    ensures { result ≡ divides_both a b k }
{
    a % k == 0 && b % k == 0
}

/// Whether a number divides `a`, and the quotient divides `b`.
fn has_quotient(a: u64, b: u64, other: u64) -> bool
    requires some { 1 ≤ other }
    requires within { 1 ≤ a / other }
    ensures { result ≡ divides a other && divides b (a / other) }
{
    a % other == 0 && b % (a / other) == 0
}

/// The greatest number below `below` that divides `a` and `b`, if it is at least the root of `a`: such numbers are looked for by the
/// quotients of `a`, the least first. Else a number that it is not above.
fn large_divisor(a: u64, b: u64, below: u64) -> Result<u64, u64>
    requires some { 1 ≤ a }
    requires small { a ≤ LARGEST_BASE }
    requires below { 1 ≤ below }
    ensures found { IfOk result (λ k. (k < below) × (divides_both a b k ≡ true) × ((j : ℕ) → j < below → divides_both a b j ≡ true → j ≤ k)) }
    ensures left { IfErr result (λ top. (j : ℕ) → j < below → divides_both a b j ≡ true → j ≤ top) }
{
    let mut other = a / below + 1;
    while other * other <= a {
        if has_quotient(a, b, other) {
            return Ok(a / other);
        }
        other += 1;
    }
    Err(a / other)
}

/// The greatest number below `below`, and up to `top`, that divides `a` and `b`; 0 where none does.
fn small_divisor(a: u64, b: u64, below: u64, top: u64) -> u64
    requires some { 1 ≤ a }
    requires top { (j : ℕ) → j < below → divides_both a b j ≡ true → j ≤ top }
    ensures { result ≡ last_below (divides_both a b) below }
{
    let mut k = top.min(below.saturating_sub(1));
    while k > 0 {
        if divides_both(a, b, k) {
            return k;
        }
        k -= 1;
    }
    0
}

/// The greatest number below `below` that divides the base and `b`; 0 where none does.
fn divisor_below(base: Base, b: u64, below: u64) -> u64
    ensures { result ≡ last_below (divides_both base b) below }
{
    if below == 0 {
        return 0;
    }
    match large_divisor(base.get(), b, below) {
        Ok(divisor) => divisor,
        Err(top) => small_divisor(base.get(), b, below, top),
    }
}

/// The greatest period of the base below this one.
#[tactic(auto, unfolding(crate::specs::Periods::period_below), using(crate::proofs::Divisors::below_alone))]
fn period_below(base: Base, period: u64) -> u64
    ensures { result ≡ period_below base period }
{
    divisor_below(base, 0, period)
}

/// The least one above it, 0 where there is none.
#[tactic(auto, unfolding(crate::specs::Periods::period_above), using(crate::proofs::Divisors::below_alone))]
fn period_above(base: Base, period: u64) -> u64
    ensures { result ≡ period_above base period }
{
    if period == 0 {
        return 0;
    }
    let other = divisor_below(base, 0, base.get().div_ceil(period));
    quotient(base.get(), other)
}

/// The least common multiple of both.
#[tactic(auto, unfolding(crate::specs::Periods::common_base))]
fn common_base(base: Base, period: u64) -> u128
    ensures { result ≡ common_base base period }
{
    let divisor = divisor_below(base, period, base.get() + 1);
    u128::from(quotient(base.get(), divisor)) * u128::from(period)
}

/// Appends the period below.
#[tactic(auto, unfolding(crate::specs::Periods::below_text))]
fn push_below(text: &mut Vec<u8>, base: Base, period: u64) -> Result<(), AllocError>
    ensures { OnOk result (text.new.items ≡ text.old.items ++ below_text base period) }
{
    let below = period_below(base, period);
    push_word(text, b"a period of ", below)
}

/// Appends the period above, if there is one.
#[tactic(auto, unfolding(crate::specs::Periods::above_text))]
fn push_above(text: &mut Vec<u8>, base: Base, period: u64) -> Result<(), AllocError>
    ensures { OnOk result (text.new.items ≡ text.old.items ++ above_text base period) }
{
    let above = period_above(base, period);
    if above == 0 {
        Ok(())
    } else {
        push_word(text, b" or ", above)
    }
}

/// Appends the base that has the period, if there may be such a base.
#[tactic(auto, unfolding(crate::specs::Periods::base_text))]
fn push_base(text: &mut Vec<u8>, base: Base, period: u64) -> Result<(), AllocError>
    ensures { OnOk result (text.new.items ≡ text.old.items ++ base_text base period) }
{
    let common = common_base(base, period);
    if common <= u128::from(LARGEST_BASE) {
        push_word(text, b", or the base ", common as u64)
    } else {
        Ok(())
    }
}

/// Appends which periods near this one the base has, and which base has both. It takes some 2^16 divisions.
///
/// # Errors
///
/// Where memory is refused: the text is given up.
pub(crate) fn push_period_hint(
    text: &mut Vec<u8>,
    base: Base,
    period: u64,
) -> Result<(), AllocError>
    ensures { OnOk result (text.new.items ≡ text.old.items ++ period_hint base period) }
{
    push_below(text, base, period)?;
    push_above(text, base, period)?;
    push_base(text, base, period)
}
