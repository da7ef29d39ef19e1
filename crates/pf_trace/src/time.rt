ghost use Rattle.std.specs.Prelude.{◌≡◌, ◌+◌, ◌++◌, ◌<◌, OnOk};
ghost use Rattle.pf_trace.specs.Times.{fraction_text, microseconds_text, time_text};

use itoa::Buffer;
use std::alloc::AllocError;

/// The digit of a number below 10.
fn digit(number: u64) -> u8
    requires { number < 10 }
    ensures { result ≡ 48 + number }
{
    b'0' + number as u8
}

/// Adds the thousandths of a whole, after a point and without zeros at their end; nothing where there are none.
fn push_fraction(text: &mut Vec<u8>, thousandths: u64) -> Result<(), AllocError>
    requires { thousandths < 1000 }
    ensures { OnOk result (text.new.items ≡ text.old.items ++ fraction_text thousandths) }
{
    if thousandths == 0 {
        return Ok(());
    }
    let first = digit(thousandths / 100);
    let second = digit(thousandths / 10 % 10);
    let third = digit(thousandths % 10);
    if thousandths % 100 == 0 {
        return text.extend_from_slice(&[b'.', first]);
    }
    if thousandths % 10 == 0 {
        return text.extend_from_slice(&[b'.', first, second]);
    }
    text.extend_from_slice(&[b'.', first, second, third])
}

/// Adds so many nanoseconds in microseconds.
fn push_nanoseconds(text: &mut Vec<u8>, nanoseconds: u64) -> Result<(), AllocError>
    ensures { OnOk result (text.new.items ≡ text.old.items ++ microseconds_text nanoseconds) }
{
    let mut digits = Buffer::new();
    let whole = digits.format(nanoseconds / 1000);
    text.extend_from_slice(whole.as_bytes())?;
    push_fraction(text, nanoseconds % 1000)
}

/// The same, of more nanoseconds than 64 bits have.
fn push_many_nanoseconds(text: &mut Vec<u8>, nanoseconds: u128) -> Result<(), AllocError>
    ensures { OnOk result (text.new.items ≡ text.old.items ++ microseconds_text nanoseconds) }
{
    let mut digits = Buffer::new();
    let whole = digits.format(nanoseconds / 1000);
    text.extend_from_slice(whole.as_bytes())?;
    push_fraction(text, (nanoseconds % 1000) as u64)
}

/// Adds so many slots of `step` nanoseconds as a time in microseconds.
pub(crate) fn push_time(text: &mut Vec<u8>, step: u64, slots: u64) -> Result<(), AllocError>
    ensures { OnOk result (text.new.items ≡ text.old.items ++ time_text step slots) }
{
    match slots.checked_mul(step) {
        Some(nanoseconds) => push_nanoseconds(text, nanoseconds),
        None => push_many_nanoseconds(text, u128::from(slots) * u128::from(step)),
    }
}
