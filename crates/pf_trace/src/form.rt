ghost use Rattle.std.specs.Prelude.{◌≡◌, ◌++◌, ◌∷◌, ◌+◌, ◌≤◌, ◌<◌, [], drop, length, OnOk, IfOk};
ghost use Rattle.pf_trace.specs.Forms.{filled, first_number, hole_text, is_hole};

use crate::time::push_time;
use crate::title::Title;
use pf_text::numbers::push_number;
use std::alloc::AllocError;

/// Whether the byte of a form is a hole.
fn is_hole(byte: u8) -> bool
    ensures { result ≡ is_hole byte }
{
    matches!(byte, b'#' | b'@' | b'$' | b'%')
}

/// Fills a hole: `$` and `%` with what the task is called, `@` with the number of slots as a time, `#` with the number.
fn push_hole(text: &mut Vec<u8>, title: &Title, hole: u8, number: u64) -> Result<(), AllocError>
    ensures { OnOk result (text.new.items ≡ text.old.items ++ hole_text title.now hole number) }
{
    match hole {
        b'$' => text.extend_from_slice(title.label()),
        b'%' => text.extend_from_slice(title.tag()),
        b'@' => push_time(text, title.step(), number),
        _ => push_number(text, number),
    }
}

/// The number at a place, 0 after the last one.
fn number_at(numbers: &[u64], at: usize) -> u64
    ensures { result ≡ first_number (drop at numbers.now) }
{
    match numbers.get(at) {
        Some(number) => *number,
        None => 0,
    }
}

/// Adds a form, its holes filled with these numbers, one after another.
pub(crate) fn push_filled(
    text: &mut Vec<u8>,
    title: &Title,
    form: &[u8],
    numbers: &[u64],
) -> Result<(), AllocError>
    ensures { OnOk result (text.new.items ≡ text.old.items ++ filled title.now form.now numbers.now) }
{
    let mut start = 0;
    let mut used = 0;
    for at in 0..form.len() {
        let byte = form[at];
        if is_hole(byte) {
            text.extend_from_slice(&form[start..at])?;
            push_hole(text, title, byte, number_at(numbers, used))?;
            start = at + 1;
            used += 1;
        }
    }
    text.extend_from_slice(&form[start..])
}
