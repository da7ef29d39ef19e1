ghost use Rattle.std.specs.Prelude.{◌≡◌, ◌<◌, ◌++◌, codes, IfOk, OnOk};
ghost use Rattle.std.specs.Fmt.{decimal};
ghost use Rattle.pf_script.specs.FaultNotes.Ranges.{above_text, long_note, outside_note, order_note, page_note};

use pf_text::numbers::push_number;
use pf_vocabulary::options::slot_range::SlotRange;
use std::alloc::{AllocError, Global};

/// Appends that an end of a range, whose word this is, is above the slots stepped.
fn push_above(text: &mut Vec<u8>, word: &[u8], end: u64, now: u64) -> Result<(), AllocError>
    ensures { OnOk result (text.new.items ≡ text.old.items ++ above_text word.now end now) }
{
    text.extend_from_slice(word)?;
    push_number(text, end)?;
    text.extend_from_slice(b" is above ")?;
    push_number(text, now)?;
    text.extend_from_slice(b", the slots stepped\n")
}

/// Appends that a range begins after its end.
fn push_turned(text: &mut Vec<u8>, from: u64, to: u64) -> Result<(), AllocError>
    ensures { OnOk result (text.new.items ≡ text.old.items ++ order_note from to) }
{
    text.extend_from_slice(b"--from ")?;
    push_number(text, from)?;
    text.extend_from_slice(b" is above --to ")?;
    push_number(text, to)?;
    text.extend_from_slice(b"\n")
}

/// Which end of a range is not within the slots stepped, which are so many: it begins after its end, or ends or begins after
/// them. The range is not within them.
///
/// # Errors
///
/// Where memory is refused.
pub fn outside_note(alloc: Global, range: SlotRange, now: u64) -> Result<Vec<u8>, AllocError>
    ensures { IfOk result (λ text. text.items ≡ outside_note range now) }
{
    let mut text = Vec::new(alloc);
    let from = range.first();
    match range.to {
        Some(to) if from > to => push_turned(&mut text, from, to)?,
        Some(to) if to > now => push_above(&mut text, b"--to ", to, now)?,
        _ => push_above(&mut text, b"--from ", from, now)?,
    }
    Ok(text)
}

/// How many slots a picture was asked for that may not show so many.
///
/// # Errors
///
/// Where memory is refused.
pub fn long_note(alloc: Global, slots: u64) -> Result<Vec<u8>, AllocError>
    ensures { IfOk result (λ text. text.items ≡ long_note slots) }
{
    let mut text = Vec::new(alloc);
    text.extend_from_slice(b"a picture shows at most 4096 slots, and ")?;
    push_number(&mut text, slots)?;
    text.extend_from_slice(b" are asked for: --from and --to choose some\n")?;
    Ok(text)
}

/// How many slots were stepped that a page may not show.
///
/// # Errors
///
/// Where memory is refused.
pub fn page_note(alloc: Global, slots: u64) -> Result<Vec<u8>, AllocError>
    ensures { IfOk result (λ text. text.items ≡ page_note slots) }
{
    let mut text = Vec::new(alloc);
    text.extend_from_slice(b"a page shows at most 65536 slots, and ")?;
    push_number(&mut text, slots)?;
    text.extend_from_slice(b" were stepped\n")?;
    Ok(text)
}
