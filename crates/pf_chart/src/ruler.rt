ghost use Rattle.std.specs.Prelude.{◌≡◌, ◌-◌, ◌++◌, map, IfOk, OnOk};
ghost use Rattle.std.specs.List.{range_with_len};
ghost use Rattle.pf_chart.specs.Chart.{number_cell, rulers_text, tick_cell};

use crate::line::push_line;
use crate::symbols::BLANK;
use std::alloc::{AllocError, Global};

/// The cell of slot t in the ruler of numbers, in a block that begins with slot `from`: at each tenth slot its number
/// begins.
///
/// # Errors
///
/// Where memory is refused.
pub fn number_cell(alloc: Global, from: u64, t: u64) -> Result<u8, AllocError>
    ensures { IfOk result (λ cell. cell ≡ number_cell from t) }
{
    let tenth = t - t % 10;
    if tenth < from {
        return Ok(BLANK);
    }
    let number = format!(in alloc; "{tenth}")?;
    let place = (t % 10) as usize;
    match number.as_bytes().get(place) {
        Some(digit) => Ok(*digit),
        None => Ok(BLANK),
    }
}

/// The cell of slot t in the ruler of marks.
pub fn tick_cell(t: u64) -> u8
    ensures { result ≡ tick_cell t }
{
    if t % 10 == 0 {
        b'|'
    } else if t % 5 == 0 {
        b':'
    } else {
        b'.'
    }
}

/// The ruler of numbers over the slots from `from` on, below `to`.
fn number_cells(alloc: Global, from: u64, to: u64) -> Result<Vec<u8>, AllocError>
    ensures { IfOk result (λ v. v.items ≡ map (number_cell from) (range_with_len from (to - from))) }
{
    let mut cells = Vec::new(alloc);
    for t in from..to {
        cells.push(number_cell(alloc, from, t)?)?;
    }
    Ok(cells)
}

/// The ruler of marks over the slots from `from` on, below `to`.
fn tick_cells(alloc: Global, from: u64, to: u64) -> Result<Vec<u8>, AllocError>
    ensures { IfOk result (λ v. v.items ≡ map tick_cell (range_with_len from (to - from))) }
{
    let mut cells = Vec::new(alloc);
    for t in from..to {
        cells.push(tick_cell(t))?;
    }
    Ok(cells)
}

/// Appends the two rulers over the slots from `from` on, below `to`, after so many places. Where memory is refused a part of them may stand
/// there.
///
/// # Errors
///
/// Where memory is refused.
pub fn push_rulers(
    alloc: Global,
    text: &mut Vec<u8>,
    places: usize,
    from: u64,
    to: u64,
) -> Result<(), AllocError>
    ensures { OnOk result (text.new.items ≡ text.old.items ++ rulers_text places from (range_with_len from (to - from))) }
{
    push_line(text, places, b"", &number_cells(alloc, from, to)?)?;
    push_line(text, places, b"", &tick_cells(alloc, from, to)?)
}
