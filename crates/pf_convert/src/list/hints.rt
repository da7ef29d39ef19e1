ghost use Rattle.std.specs.Prelude.{◌≡◌, ◌++◌, IfOk, OnOk, nat_lt};
ghost use Rattle.pf_vocabulary.specs.Names.Text.{is_text_byte};
ghost use Rattle.std.specs.List.{list_all, list_any};
ghost use Rattle.pf_convert.specs.List.Heading.{column_like};
ghost use Rattle.pf_convert.specs.List.Hints.{column_hint, fit_hint, has_byte, is_name_text, length_hint, meant_column, name_hint, no_time_hint, surplus_hint, time_hint, with_points};

use crate::list::column::Column;
use crate::list::parts::{Part, push_parts};
use crate::list::time::{TimeFault, parse_time};
use pf_message::nearness::near_name;
use pf_message::shell::push_shell_word;
use pf_vocabulary::names::name::is_letter_first;
use pf_vocabulary::names::unit::Unit;
use std::alloc::{AllocError, Global};

/// Where the list ends within the quotes of a field.
pub const QUOTE_HINT: &str = "the quote that begins here is not closed";

/// Where a field has a `#`.
const COMMENT_HINT: &str = "a comment has a line of its own";

/// Adds what would be right in place of a field that names no column.
///
/// # Errors
///
/// Where memory is refused: a front of it was added.
#[tactic(auto, unfolding(crate::specs::List::Hints::column_hint))]
pub fn push_column_hint(alloc: Global, text: &mut Vec<u8>, field: &[u8]) -> Result<(), AllocError>
    ensures { OnOk result (text.new.items ≡ text.old.items ++ column_hint field.now) }
{
    if has_byte(field, b';') {
        return text.extend_from_slice(b"commas separate fields, not semicolons");
    }
    if has_byte(field, b'\t') {
        return text.extend_from_slice(b"commas separate fields, not tabs");
    }
    push_meant_column(alloc, text, field)
}

/// Adds the column that is meant by a word, or the one that it is near to.
fn push_meant_column(alloc: Global, text: &mut Vec<u8>, field: &[u8]) -> Result<(), AllocError>
    ensures { OnOk result (text.new.items ≡ text.old.items ++ meant_column field.now (column_like field.now)) }
{
    if let Some(column) = Column::like(field) {
        return text.extend_from_slice(column.word().as_bytes());
    }
    let names = ["name", "work", "every", "deadline", "first", "early"];
    let near = near_name(alloc, field, &names)?;
    text.extend_from_slice(near.unwrap_or("").as_bytes())
}

/// Whether a field has a byte.
fn has_byte(field: &[u8], byte: u8) -> bool
    ensures { result ≡ has_byte byte field.now }
{
    field.iter().any(|other| *other == byte)
}

/// Adds what would be right in place of a field that is no name; whether the list ends within its quotes.
///
/// # Errors
///
/// Where memory is refused: a front of it was added.
#[tactic(auto, unfolding(crate::specs::List::Hints::name_hint))]
pub fn push_name_hint(text: &mut Vec<u8>, is_open: bool, field: &[u8]) -> Result<(), AllocError>
    ensures { OnOk result (text.new.items ≡ text.old.items ++ name_hint is_open field.now) }
{
    if is_open {
        return text.extend_from_slice(QUOTE_HINT.as_bytes());
    }
    if has_byte(field, b'#') {
        return text.extend_from_slice(COMMENT_HINT.as_bytes());
    }
    if field.len() > 24 && is_name_text(field) {
        return push_length_hint(text, field.len());
    }
    if has_high_byte(field) {
        return text.extend_from_slice(b"letters are A to Z and a to z");
    }
    Ok(())
}

/// Adds how many bytes a name has that is too long.
fn push_length_hint(text: &mut Vec<u8>, count: usize) -> Result<(), AllocError>
    ensures { OnOk result (text.new.items ≡ text.old.items ++ length_hint count) }
{
    push_parts(
        text,
        &[
            Part::Words("it has "),
            Part::Number(count as u64),
            Part::Words(" bytes, and 24 are the most"),
        ],
    )
}

/// Whether a field has a byte above those of ASCII that are shown.
fn has_high_byte(field: &[u8]) -> bool
    ensures { result ≡ list_any (λ b. nat_lt 126 b) field.now }
{
    field.iter().any(|byte| *byte > 126)
}

/// Whether a field is a name but for its length.
fn is_name_text(field: &[u8]) -> bool
    ensures { result ≡ is_name_text field.now }
{
    is_letter_first(field) && has_text_bytes(field)
}

/// Whether a name may have these bytes.
fn has_text_bytes(field: &[u8]) -> bool
    ensures { result ≡ list_all is_text_byte field.now }
{
    field.iter().all(|byte| is_text_byte(*byte))
}

/// Whether a name may have this byte.
fn is_text_byte(byte: u8) -> bool
    ensures { result ≡ is_text_byte byte }
{
    byte.is_ascii_alphanumeric() || matches!(byte, b'_' | b'-' | b'.' | b'+' | b' ')
}

/// Adds what would be right in place of a field that has this fault of a time; whether the list ends within its quotes.
///
/// # Errors
///
/// Where memory is refused: a front of it was added.
pub fn push_time_hint(
    alloc: Global,
    text: &mut Vec<u8>,
    is_open: bool,
    field: &[u8],
    fault: TimeFault,
) -> Result<(), AllocError>
    ensures { OnOk result (text.new.items ≡ text.old.items ++ time_hint is_open field.now fault) }
{
    match fault {
        TimeFault::NoTime => push_no_time_hint(alloc, text, is_open, field),
        TimeFault::NoUnit => text.extend_from_slice(b"--unit tells that of the others"),
        TimeFault::TooFine | TimeFault::Zero => Ok(()),
    }
}

/// Adds what would be right in place of a field that is no time.
///
/// # Errors
///
/// Where memory is refused: a front of it was added.
#[tactic(auto, unfolding(crate::specs::List::Hints::no_time_hint))]
pub fn push_no_time_hint(
    alloc: Global,
    text: &mut Vec<u8>,
    is_open: bool,
    field: &[u8],
) -> Result<(), AllocError>
    ensures { OnOk result (text.new.items ≡ text.old.items ++ no_time_hint is_open field.now) }
{
    if is_open {
        return text.extend_from_slice(QUOTE_HINT.as_bytes());
    }
    if has_byte(field, b'#') {
        return text.extend_from_slice(COMMENT_HINT.as_bytes());
    }
    let decimal = with_points(alloc, field)?;
    match parse_time(Unit::Millisecond, &decimal) {
        Ok(_) => text.extend_from_slice(&decimal),
        Err(_) => Ok(()),
    }
}

/// A field with points for commas.
///
/// # Errors
///
/// Where memory is refused.
pub fn with_points(alloc: Global, field: &[u8]) -> Result<Vec<u8>, AllocError>
    ensures { IfOk result (λ text. text.items ≡ with_points field.now) }
{
    let mut text = Vec::new(alloc);
    for byte in field {
        text.push(if *byte == b',' { b'.' } else { *byte })?;
    }
    Ok(text)
}

/// What would be right in place of the first field too much.
pub fn surplus_hint(field: &[u8]) -> &'static str
    ensures { result.now ≡ surplus_hint field.now }
{
    match field {
        [b'#', ..] => COMMENT_HINT,
        _ => "a decimal has a point, no comma",
    }
}

/// Adds what tells of a script whether it fits. The file `-` is standard input.
///
/// # Errors
///
/// Where memory is refused: a front of it was added.
#[tactic(auto, unfolding(crate::specs::List::Hints::fit_hint))]
pub fn push_fit_hint(text: &mut Vec<u8>, file: &[u8]) -> Result<(), AllocError>
    ensures { OnOk result (text.new.items ≡ text.old.items ++ fit_hint file.now) }
{
    text.extend_from_slice(b"pfair fit")?;
    if file == b"-".as_slice() {
        return Ok(());
    }
    text.extend_from_slice(b" ")?;
    push_shell_word(text, file)
}
