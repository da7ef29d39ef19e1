ghost use Rattle.std.specs.Prelude.{◌≡◌, ◌+◌};
ghost use Rattle.std.specs.List.{list_any};
ghost use Rattle.std.specs.Str.{chars, continuation_len};
ghost use Rattle.pf_text.specs.FileName.{front_bytes, is_direction_mark, is_hidden, is_plain, plain_len};

use std::str;

/// Whether a character is one of Unicode's marks of direction (Bidi_Control), which turn the text around them.
fn is_direction_mark(character: char) -> bool
    ensures { result ≡ is_direction_mark character }
{
    matches!(
        character,
        '\u{61C}' | '\u{200E}'..='\u{200F}' | '\u{202A}'..='\u{202E}' | '\u{2066}'..='\u{2069}'
    )
}

/// Whether a character acts on a terminal and has no shape: Unicode's controls, and its marks of direction.
fn is_hidden(character: char) -> bool
    ensures { result ≡ is_hidden character }
{
    character.is_control() || is_direction_mark(character)
}

/// Whether a text has a character that is hidden.
fn has_hidden(text: &str) -> bool
    ensures { result ≡ list_any is_hidden (chars text.now) }
{
    text.chars().any(is_hidden)
}

/// Whether bytes are shown as they are: UTF-8 without a hidden character.
pub fn is_plain(bytes: &[u8]) -> bool
    ensures { result ≡ is_plain bytes.now }
{
    match str::from_utf8(bytes) {
        Ok(text) => !has_hidden(text),
        Err(_) => false,
    }
}

/// How many bytes of UTF-8 a first byte asks for.
fn character_len(first: u8) -> usize
    ensures { result ≡ continuation_len first + 1 }
{
    match first {
        0..=0x7F => 1,
        0x80..=0xDF => 2,
        0xE0..=0xEF => 3,
        _ => 4,
    }
}

/// The bytes at the front, as many as the first of them asks for.
fn front_bytes(bytes: &[u8]) -> &[u8]
    ensures { result.now ≡ front_bytes bytes.now }
{
    match bytes {
        [first, ..] => bytes.get(..character_len(*first)).unwrap_or(bytes),
        [] => bytes,
    }
}

/// How many bytes the character at the front has where it is shown as it is, else 0.
#[tactic(auto, unfolding(crate::specs::FileName::plain_len))]
pub(crate) fn plain_len(bytes: &[u8]) -> usize
    ensures { result ≡ plain_len bytes.now }
{
    let front = front_bytes(bytes);
    if is_plain(front) { front.len() } else { 0 }
}
