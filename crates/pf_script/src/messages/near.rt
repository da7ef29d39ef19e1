ghost use Rattle.std.specs.Prelude.{◌≡◌, ◌||◌, ◌==◌, IfOk, map, codes};
ghost use Rattle.std.specs.List.{list_any};
ghost use Rattle.std.specs.Str.{bytes_eq};
ghost use Rattle.pf_script.specs.declared.messages.kind.ScriptKind.TheVariants.{Plan};
ghost use Rattle.pf_script.specs.Messages.Words.{record_words};
ghost use Rattle.pf_script.specs.Messages.WordHints.{before_blank, has_byte, is_blank, is_desk_word, is_parted_by_blank, is_plan_word, near_or_all, word_hint};

use crate::fields::is_same;
use crate::messages::kind::ScriptKind;
use crate::messages::words::{push_one_of, record_words};
use pf_message::nearness::near_name;
use std::alloc::{AllocError, Global};

/// Whether a byte is among others.
pub(crate) fn has_byte(byte: u8, bytes: &[u8]) -> bool
    ensures { result ≡ has_byte byte bytes.now }
{
    for other in bytes {
        if *other == byte {
            return true;
        }
    }
    false
}

/// Whether a byte is a space or a tab.
fn is_blank(byte: u8) -> bool
    ensures { result ≡ is_blank byte }
{
    byte == b' ' || byte == b'\t'
}

/// What stands before the first blank.
fn before_blank(word: &[u8]) -> &[u8]
    ensures { result.now ≡ before_blank word.now }
{
    let mut end = 0;
    while end < word.len() && !is_blank(word[end]) {
        end += 1;
    }
    &word[..end]
}

/// Whether a word has a blank.
fn has_blank(word: &[u8]) -> bool
    ensures { result ≡ list_any is_blank word.now }
{
    for byte in word {
        if is_blank(*byte) {
            return true;
        }
    }
    false
}

/// Whether a word names a record of a plan.
fn is_record_word(word: &[u8]) -> bool
    ensures { result ≡ list_any (bytes_eq word.now) (record_words Plan) }
{
    is_same(word, b"settings")
        || is_same(word, b"slot")
        || is_same(word, b"name")
        || is_same(word, b"join")
        || is_same(word, b"leave")
        || is_same(word, b"delay")
        || is_same(word, b"limit")
        || is_same(word, b"label")
        || is_same(word, b"alter")
        || is_same(word, b"strike")
        || is_same(word, b"strict")
        || is_same(word, b"step")
}

/// Whether a word is one of a plan's.
pub(crate) fn is_plan_word(word: &[u8]) -> bool
    ensures { result ≡ is_plan_word word.now }
{
    is_record_word(word) || is_same(word, b"plan")
}

/// Whether a word is one of a session's.
fn is_desk_word(word: &[u8]) -> bool
    ensures { result ≡ is_desk_word word.now }
{
    is_same(word, b"why")
        || is_same(word, b"fit")
        || is_same(word, b"try")
        || is_same(word, b"undo")
        || is_same(word, b"redo")
        || is_same(word, b"mark")
        || is_same(word, b"diff")
        || is_same(word, b"save")
        || is_same(word, b"write")
        || is_same(word, b"help")
        || is_same(word, b"quit")
}

/// Whether a word of a plan stands before a blank.
fn is_parted_by_blank(word: &[u8]) -> bool
    ensures { result ≡ is_parted_by_blank word.now }
{
    has_blank(word) && is_plan_word(before_blank(word))
}

/// Bytes of one's own.
pub(crate) fn owned(alloc: Global, bytes: &[u8]) -> Result<Vec<u8>, AllocError>
    ensures { IfOk result (λ text. text.items ≡ bytes.now) }
{
    Vec::from_slice(alloc, bytes)
}

/// The word that is near to a field, where that is sought, or else all that may stand there.
fn near_or_all(alloc: Global, seeks: bool, at: &[u8], words: &[&str]) -> Result<Vec<u8>, AllocError>
    ensures { IfOk result (λ text. text.items ≡ near_or_all seeks at.now (map (λ w. w.now) words.now)) }
{
    let mut text = Vec::new(alloc);
    if seeks {
        if let Some(word) = near_name(alloc, at, words)? {
            text.extend_from_slice(word.as_bytes())?;
            return Ok(text);
        }
    }
    push_one_of(&mut text, words)?;
    Ok(text)
}

/// What would be right in place of a field that is none of these words.
#[tactic(auto, unfolding(crate::specs::Messages::WordHints::word_hint))]
pub(crate) fn word_hint(
    alloc: Global,
    seeks: bool,
    at: &[u8],
    words: &[&str],
) -> Result<Vec<u8>, AllocError>
    ensures { IfOk result (λ text. text.items ≡ word_hint seeks at.now (map (λ w. w.now) words.now)) }
{
    if has_byte(b';', at) {
        return owned(alloc, b"commas separate fields, not semicolons");
    }
    if is_parted_by_blank(at) {
        return owned(alloc, b"commas separate fields, not blanks");
    }
    if is_desk_word(at) {
        let mut text = owned(alloc, at)?;
        text.extend_from_slice(b" is a word of pfair desk")?;
        return Ok(text);
    }
    near_or_all(alloc, seeks, at, words)
}
