ghost use Rattle.std.specs.Prelude.{◌≡◌, ◌++◌, ◌∷◌, ℕ, List, codes, false, IfOk, OnOk};
ghost use Rattle.std.specs.List.{flat_map};
ghost use Rattle.pf_session_lines.specs.Lines.{in_quotes, is_blank, is_comment, is_end, line_of, parted, parted_byte, record_text, row_text, skip_blanks, within_row};

use pf_script::fields::Fields;
use std::alloc::{AllocError, Global};

/// The record of a line as CSV, without a byte where the line is a comment.
///
/// # Errors
///
/// Where memory is refused.
pub(crate) fn row_text(alloc: Global, line: &[u8]) -> Result<Vec<u8>, AllocError>
    ensures { IfOk result (λ text. text.items ≡ row_text line.now) }
{
    let mut text = Vec::new(alloc);
    let rest = skip_blanks(line);
    if !is_comment(rest) {
        push_record(&mut text, line, rest)?;
    }
    Ok(text)
}

/// The record of a line that is no comment; `rest` is what stands after its first blanks.
fn push_record(text: &mut Vec<u8>, line: &[u8], rest: &[u8]) -> Result<(), AllocError>
    requires { rest.now ≡ skip_blanks line.now }
    ensures { OnOk result (text.new.items ≡ text.old.items ++ record_text line.now) }
{
    if line.contains(&b',') {
        push_within(text, line)
    } else {
        push_parted(text, rest)
    }
}

/// The bytes of a record whose fields are parted by commas.
fn push_within(text: &mut Vec<u8>, line: &[u8]) -> Result<(), AllocError>
    ensures { OnOk result (text.new.items ≡ text.old.items ++ flat_map within_row line.now) }
{
    for byte in line {
        push_row_byte(text, *byte)?;
    }
    Ok(())
}

/// Where a line is whose fields are parted by blanks.
#[derive(Clone, Copy)]
struct Place {
    /// The next byte lies in quotes.
    quoted: bool,
    /// It comes after blanks that part fields.
    is_behind: bool,
}

/// The bytes of a record whose fields are parted by blanks.
fn push_parted(text: &mut Vec<u8>, line: &[u8]) -> Result<(), AllocError>
    ensures { OnOk result (text.new.items ≡ text.old.items ++ parted false false line.now) }
{
    let mut place = Place {
        quoted: false,
        is_behind: false,
    };
    for byte in line {
        place = push_next(text, place, *byte)?;
    }
    Ok(())
}

/// What one byte adds, and the place after it.
#[tactic(auto, unfolding(crate::specs::Lines::parted))]
fn push_next(text: &mut Vec<u8>, place: Place, byte: u8) -> Result<Place, AllocError>
    ensures { IfOk result (λ next. (rest : List ℕ) →
        text.new.items ++ parted next.quoted next.is_behind rest ≡ text.old.items ++ parted place.quoted place.is_behind (byte ∷ rest)) }
{
    let quoted = place.quoted;
    if is_blank(byte) && !quoted {
        return Ok(Place {
            quoted,
            is_behind: true,
        });
    }
    push_byte(text, place.is_behind, byte)?;
    Ok(Place {
        quoted: in_quotes(quoted, byte),
        is_behind: false,
    })
}

/// A byte, after a comma where it comes after blanks.
fn push_byte(text: &mut Vec<u8>, is_behind: bool, byte: u8) -> Result<(), AllocError>
    ensures { OnOk result (text.new.items ≡ text.old.items ++ parted_byte is_behind byte) }
{
    if is_behind {
        text.push(b',')?;
    }
    push_row_byte(text, byte)
}

/// Whether the next byte lies in quotes.
fn in_quotes(quoted: bool, byte: u8) -> bool
    ensures { result ≡ in_quotes quoted byte }
{
    if byte == b'"' { !quoted } else { quoted }
}

/// Whether a byte ends a line elsewhere.
fn is_end(byte: u8) -> bool
    ensures { result ≡ is_end byte }
{
    byte == b'\n' || byte == b'\r'
}

/// Whether a byte is blank.
fn is_blank(byte: u8) -> bool
    ensures { result ≡ is_blank byte }
{
    byte == b' ' || byte == b'\t' || is_end(byte)
}

/// A byte of a record, which no end within its line ends.
fn push_row_byte(text: &mut Vec<u8>, byte: u8) -> Result<(), AllocError>
    ensures { OnOk result (text.new.items ≡ text.old.items ++ within_row byte) }
{
    text.push(if is_end(byte) { b' ' } else { byte })?;
    Ok(())
}

/// What stands after the first blanks.
fn skip_blanks(line: &[u8]) -> &[u8]
    ensures { result.now ≡ skip_blanks line.now }
{
    for (place, byte) in line.iter().enumerate() {
        if !is_blank(*byte) {
            return &line[place..];
        }
    }
    &[]
}

/// Whether the first byte is `#`.
fn is_comment(line: &[u8]) -> bool
    ensures { result ≡ is_comment line.now }
{
    matches!(line, [b'#', ..])
}

/// Fields as a line of a script.
///
/// # Errors
///
/// Where memory is refused.
pub fn line_of(alloc: Global, fields: &Fields) -> Result<Vec<u8>, AllocError>
    ensures { IfOk result (λ line. line.items ≡ line_of fields.now) }
{
    let mut line = Vec::new(alloc);
    line.extend_from_slice(fields.field(0))?;
    push_fields(&mut line, &fields.rest(1))?;
    line.push(b'\n')?;
    Ok(line)
}

/// Fields, each after a comma.
fn push_fields(line: &mut Vec<u8>, fields: &Fields) -> Result<(), AllocError>
    ensures { OnOk result (line.new.items ≡ line.old.items ++ flat_map (λ f. codes "," ++ f) fields.now) }
{
    for place in 0..fields.len() {
        line.push(b',')?;
        line.extend_from_slice(fields.field(place))?;
    }
    Ok(())
}
