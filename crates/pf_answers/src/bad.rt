ghost use Rattle.std.specs.Prelude.{◌≡◌, ◌++◌, OnOk};
ghost use Rattle.pf_answers.specs.Bad.{bad_json, bad_line, bad_text, field_front, field_member, hint_if, hint_member};

use crate::manner::Manner;
use crate::quoted::push_quoted;
use pf_message::form::push_hint;
use pf_notes::words::push_between;
use std::alloc::AllocError;

/// Appends the field at fault, from the second on.
fn push_field(text: &mut Vec<u8>, field: u64) -> Result<(), AllocError>
    ensures { OnOk result (text.new.items ≡ text.old.items ++ field_front field) }
{
    if field <= 1 {
        return Ok(());
    }
    push_between(text, b"field ", field, b": ")
}

/// Appends it as a member.
fn push_member(text: &mut Vec<u8>, field: u64) -> Result<(), AllocError>
    ensures { OnOk result (text.new.items ≡ text.old.items ++ field_member field) }
{
    if field <= 1 {
        return Ok(());
    }
    push_between(text, b"\"field\":", field, b",")
}

/// Appends what would be right as a member, where something would.
fn push_hint_member(text: &mut Vec<u8>, hint: &[u8]) -> Result<(), AllocError>
    ensures { OnOk result (text.new.items ≡ text.old.items ++ hint_member hint.now) }
{
    if hint.is_empty() {
        return Ok(());
    }
    text.extend_from_slice(b"\"hint\":")?;
    push_quoted(text, hint)?;
    text.extend_from_slice(b",")
}

/// Appends the line of what would be right, where something would and hints are told.
fn push_hint_if(text: &mut Vec<u8>, quiet: bool, hint: &[u8]) -> Result<(), AllocError>
    ensures { OnOk result (text.new.items ≡ text.old.items ++ hint_if quiet hint.now) }
{
    if quiet || hint.is_empty() {
        return Ok(());
    }
    push_hint(text, hint)
}

/// Appends the answer to a bad line as an object.
fn push_json(text: &mut Vec<u8>, field: u64, words: &[u8], hint: &[u8]) -> Result<(), AllocError>
    ensures { OnOk result (text.new.items ≡ text.old.items ++ bad_json field words.now hint.now) }
{
    text.extend_from_slice(b"{\"bad\":{")?;
    push_member(text, field)?;
    push_hint_member(text, hint)?;
    text.extend_from_slice(b"\"text\":")?;
    push_quoted(text, words)?;
    text.extend_from_slice(b"}}\n")
}

/// Appends the line that tells of a bad line.
fn push_line(text: &mut Vec<u8>, field: u64, words: &[u8]) -> Result<(), AllocError>
    ensures { OnOk result (text.new.items ≡ text.old.items ++ bad_line field words.now) }
{
    text.extend_from_slice(b"bad line: ")?;
    push_field(text, field)?;
    text.extend_from_slice(words)?;
    text.extend_from_slice(b"\n")
}

/// Appends the answer to a bad line: the field at fault, 0 where there is none, why, and what would be right, nothing where nothing
/// can be said.
///
/// # Errors
///
/// Where memory is refused: the text is given up.
pub fn push_bad(
    text: &mut Vec<u8>,
    manner: Manner,
    field: u64,
    words: &[u8],
    hint: &[u8],
) -> Result<(), AllocError>
    ensures { OnOk result (text.new.items ≡ text.old.items ++ bad_text manner field words.now hint.now) }
{
    if manner.json {
        return push_json(text, field, words, hint);
    }
    push_line(text, field, words)?;
    push_hint_if(text, manner.quiet, hint)
}
