//! The lines of a text.

ghost use Rattle.std.specs.Prelude.{◌≡◌, ◌⊎◌, [], true, false, not, IfErr, IfOk, OnOk, MatchOption};
ghost use Rattle.std.specs.List.{list_any};
ghost use Rattle.pf_journal.specs.Batches.{has_room};
ghost use Rattle.pf_journal.specs.Lines.{journal_of, texts_of};
ghost use Rattle.pf_journal.specs.Texts.{IsFirst, whole_lines};
ghost use Rattle.pf_journal.specs.declared.journal_error.JournalError.TheVariants.{LongLine, OutOfMemory};

use crate::batch::MOST_TEXT;
use crate::journal_error::JournalError;
use std::alloc::Global;

/// The first line that ends in a text, without its end, and what stands after it.
pub(crate) fn first_line(text: &[u8]) -> Option<(&[u8], &[u8])>
    ensures { MatchOption result (whole_lines text.now ≡ []) (λ parts. IsFirst text.now parts.0.now parts.1.now) }
{
    for (end, byte) in text.iter().enumerate() {
        if *byte == b'\n' {
            return Some((&text[..end], &text[end + 1..]));
        }
    }
    None
}

/// The lines that end in a text, with open gates, and a shut gate after them.
///
/// # Errors
///
/// `LongLine` where one has more bytes than a line may have, and `OutOfMemory` where memory is refused.
pub(crate) fn gated_lines(alloc: Global, text: &[u8]) -> Result<Vec<u8>, JournalError>
    ensures gated { IfOk result (λ bytes. bytes.items ≡ journal_of (whole_lines text.now)) }
    ensures read { IfOk result (λ bytes. texts_of bytes.items ≡ whole_lines text.now) }
    ensures short { OnOk result (list_any (λ line. not (has_room [] line)) (whole_lines text.now) ≡ false) }
    ensures failed { IfErr result (λ error. ((error ≡ LongLine) × (list_any (λ line. not (has_room [] line)) (whole_lines text.now) ≡ true))
        ⊎ (error ≡ OutOfMemory)) }
{
    let mut bytes = Vec::new(alloc);
    let mut rest = text;
    while let Some((line, after)) = first_line(rest) {
        if line.len() > MOST_TEXT {
            return Err(JournalError::LongLine);
        }
        bytes.extend_from_slice(b" ")?;
        bytes.extend_from_slice(line)?;
        bytes.extend_from_slice(b"\n")?;
        rest = after;
    }
    bytes.extend_from_slice(b"#")?;
    Ok(bytes)
}
