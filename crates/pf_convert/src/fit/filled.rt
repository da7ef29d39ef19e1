ghost use Rattle.std.specs.Prelude.{◌≡◌, ◌++◌, OnOk, codes};
ghost use Rattle.pf_convert.specs.Fit.Filled.{filled, gap_before, holds_word, width_after, word_text};

use std::alloc::{AllocError, Global};

/// The most bytes of a line that is filled.
const WIDTH: usize = 79;

/// Whether a line of this width holds a word more.
fn holds_word(width: usize, word: &[u8]) -> bool
    ensures { result ≡ holds_word width word.now }
{
    word.len() < WIDTH.saturating_sub(width)
}

/// What stands before a word on or after a line of this width.
fn gap_before(width: usize, word: &[u8]) -> &'static str
    ensures { result.now ≡ gap_before width word.now }
{
    if width == 0 {
        ""
    } else if holds_word(width, word) {
        " "
    } else {
        "\n  "
    }
}

/// The width of the line on which a word is after a line of this width.
fn width_after(width: usize, word: &[u8]) -> usize
    ensures { result ≡ width_after width word.now }
{
    if width == 0 {
        word.len()
    } else if holds_word(width, word) {
        width + 1 + word.len()
    } else {
        word.len() + 2
    }
}

/// Adds a word to a line of this width, or to the next one.
fn push_word(text: &mut Vec<u8>, width: usize, word: &[u8]) -> Result<(), AllocError>
    ensures { OnOk result (text.new.items ≡ text.old.items ++ word_text width word.now) }
{
    text.extend_from_slice(gap_before(width, word).as_bytes())?;
    text.extend_from_slice(word)
}

/// Adds the last word, and the end of its line.
fn push_last(text: &mut Vec<u8>, width: usize, word: &[u8]) -> Result<(), AllocError>
    ensures { OnOk result (text.new.items ≡ text.old.items ++ (word_text width word.now ++ codes "\n")) }
{
    push_word(text, width, word)?;
    text.extend_from_slice(b"\n")
}

/// Adds words that are parted by blanks in lines of up to 79 bytes, of which all but the first begin with two blanks.
///
/// # Errors
///
/// Where memory is refused: a front of them was added.
pub fn push_filled(alloc: Global, text: &mut Vec<u8>, words: &[u8]) -> Result<(), AllocError>
    ensures { OnOk result (text.new.items ≡ text.old.items ++ filled words.now) }
{
    let mut width = 0;
    let mut word = Vec::new(alloc);
    for byte in words {
        if *byte == b' ' {
            push_word(text, width, &word)?;
            width = width_after(width, &word);
            word = Vec::new(alloc);
        } else {
            word.push(*byte)?;
        }
    }
    push_last(text, width, &word)
}
