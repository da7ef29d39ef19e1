ghost use Rattle.std.specs.Prelude.{◌≡◌, ◌↔◌, ◌++◌, ◌*◌, ◌/◌, ◌%◌, ◌^◌, ◌<◌, ◌≤◌, IsTrue, OnOk, decimal};
ghost use Rattle.pf_text.specs.Columns.Decimals.{last_digits, with_places, with_fewest_places, up, cut, signed_cut};

use itoa::Buffer;
use std::alloc::AllocError;

/// The most decimals of a quotient.
pub const MOST_PLACES: u32 = 6;

/// Adds a number of up to 128 bits in base 10.
pub fn push_wide(text: &mut Vec<u8>, number: u128) -> Result<(), AllocError>
    ensures { OnOk result (text.new.items ≡ text.old.items ++ decimal number) }
{
    let mut digits = Buffer::new();
    text.extend_from_slice(digits.format(number).as_bytes())
}

/// Adds the last digits of a number, so many.
fn push_last_digits(text: &mut Vec<u8>, places: u32, number: u128) -> Result<(), AllocError>
    ensures { OnOk result (text.new.items ≡ text.old.items ++ last_digits places number) }
{
    if places == 0 {
        return Ok(());
    }
    push_last_digits(text, places - 1, number / 10)?;
    text.push(b'0' + (number % 10) as u8)?;
    Ok(())
}

/// Adds a number that counts parts of 10^-places, with so many decimals.
fn push_places(text: &mut Vec<u8>, places: u32, number: u128) -> Result<(), AllocError>
    requires { places ≤ 18 }
    ensures { OnOk result (text.new.items ≡ text.old.items ++ with_places places number) }
{
    push_wide(text, number / 10u128.pow(places))?;
    text.push(b'.')?;
    push_last_digits(text, places, number)
}

/// Adds a number that counts parts of 10^-places, with as few decimals as tell it, and no point where none does.
///
/// # Errors
///
/// Where memory is refused: a front of it was added.
pub fn push_fewest_places(text: &mut Vec<u8>, places: u32, number: u128) -> Result<(), AllocError>
    requires { places ≤ 18 }
    ensures { OnOk result (text.new.items ≡ text.old.items ++ with_fewest_places places number) }
{
    if places == 0 {
        return push_wide(text, number);
    }
    if number % 10 == 0 {
        return push_fewest_places(text, places - 1, number / 10);
    }
    push_places(text, places, number)
}

/// A quotient in parts of 10^-places, and whether it is more than that.
fn parts_of(a: u128, b: u128, places: u32) -> (u128, bool)
    requires some { 1 ≤ b }
    requires long { b < 2 ^ 124 }
    requires low { a / b < 2 ^ 100 }
    requires few { places ≤ MOST_PLACES }
    ensures parts { result.0 ≡ a * 10 ^ places / b }
    ensures small { result.0 < 2 ^ 120 }
    ensures more { IsTrue result.1 ↔ 1 ≤ a * 10 ^ places % b }
{
    let mut parts = a / b;
    let mut rest = a % b;
    for _ in 0..places {
        rest *= 10;
        parts = parts * 10 + rest / b;
        rest %= b;
    }
    (parts, rest > 0)
}

/// Adds `a / b`, rounded up to so many decimals.
///
/// # Errors
///
/// Where memory is refused: a front of it was added.
pub fn push_up(text: &mut Vec<u8>, a: u128, b: u128, places: u32) -> Result<(), AllocError>
    requires some { 1 ≤ b }
    requires long { b < 2 ^ 124 }
    requires low { a / b < 2 ^ 100 }
    requires few { places ≤ MOST_PLACES }
    ensures { OnOk result (text.new.items ≡ text.old.items ++ up a b places) }
{
    let (parts, more) = parts_of(a, b, places);
    push_places(text, places, parts + u128::from(more))
}

/// Adds `a / b` with so many decimals, the rest cut off: towards 0, and with a sign only where a digit that is shown is not
/// 0.
///
/// # Errors
///
/// Where memory is refused: a front of it was added.
pub fn push_cut(text: &mut Vec<u8>, a: i64, b: u64, places: u32) -> Result<(), AllocError>
    requires some { 1 ≤ b }
    requires few { places ≤ MOST_PLACES }
    ensures { OnOk result (text.new.items ≡ text.old.items ++ signed_cut a b places) }
{
    let (parts, _) = parts_of(u128::from(a.unsigned_abs()), u128::from(b), places);
    if a < 0 && parts > 0 {
        text.push(b'-')?;
    }
    push_places(text, places, parts)
}
