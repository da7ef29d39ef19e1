ghost use Rattle.std.specs.Prelude.{◌≡◌, take};
ghost use Rattle.std.specs.List.{list_any};
ghost use Rattle.csv.specs.Records.{fields_of};
ghost use Rattle.pf_convert.specs.List.List.{bytes_fault, has_control, is_control, is_utf16, looked_at, names_script};

use crate::list::fault::FileFault;
use crate::list::heading::field_of;
use crate::list::open_line::without_mark;
use csv::ByteRecord;

/// How many bytes of a file are looked at for control characters.
pub const LOOKED_AT: usize = 1024;

/// What a file is by its bytes alone that is no list of tasks.
pub fn bytes_fault(text: &[u8]) -> Option<FileFault>
    ensures { result ≡ bytes_fault text.now }
{
    if is_utf16(text) {
        return Some(FileFault::Utf16);
    }
    if has_control(looked_at(text)) {
        return Some(FileFault::NoText);
    }
    if without_mark(text).is_empty() {
        return Some(FileFault::Empty);
    }
    None
}

/// Whether the first bytes are those of UTF-16.
fn is_utf16(text: &[u8]) -> bool
    ensures { result ≡ is_utf16 text.now }
{
    match text {
        [0xFF, 0xFE, ..] | [0xFE, 0xFF, ..] => true,
        _ => false,
    }
}

/// The bytes that are looked at for control characters.
fn looked_at(text: &[u8]) -> &[u8]
    ensures { result.now ≡ looked_at text.now }
{
    let end = LOOKED_AT.min(text.len());
    &text[..end]
}

/// Whether there is a control character among these bytes, tabs and what ends or parts lines aside.
fn has_control(bytes: &[u8]) -> bool
    ensures { result ≡ has_control bytes.now }
{
    bytes.iter().any(|byte| is_control(*byte))
}

/// Whether a byte is none of a text.
fn is_control(byte: u8) -> bool
    ensures { result ≡ is_control byte }
{
    byte < 9 || (byte >= 14 && byte <= 31)
}

/// Whether a row is the first one of a script or a plan.
pub fn names_script(row: &ByteRecord) -> bool
    ensures { result ≡ names_script (fields_of row.now) }
{
    let word = field_of(row, 0);
    word == b"plan".as_slice() || word == b"pfair".as_slice() || word == b"settings".as_slice()
}
