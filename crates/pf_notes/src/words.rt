ghost use Rattle.std.specs.Prelude.{◌≡◌, ◌++◌, OnOk};
ghost use Rattle.std.specs.Fmt.{decimal};

use pf_text::numbers::push_number;
use std::alloc::AllocError;

/// Appends a word and a number.
///
/// # Errors
///
/// Where memory is refused: the text is given up.
pub fn push_word(text: &mut Vec<u8>, word: &[u8], number: u64) -> Result<(), AllocError>
    ensures { OnOk result (text.new.items ≡ text.old.items ++ (word.now ++ decimal number)) }
{
    text.extend_from_slice(word)?;
    push_number(text, number)
}

/// Appends a number between two words.
///
/// # Errors
///
/// Where memory is refused: the text is given up.
pub fn push_between(
    text: &mut Vec<u8>,
    word: &[u8],
    number: u64,
    end: &[u8],
) -> Result<(), AllocError>
    ensures { OnOk result (text.new.items ≡ text.old.items ++ (word.now ++ decimal number ++ end.now)) }
{
    text.extend_from_slice(word)?;
    push_number(text, number)?;
    text.extend_from_slice(end)
}

/// Appends two words, a number after each.
///
/// # Errors
///
/// Where memory is refused: the text is given up.
pub fn push_two(
    text: &mut Vec<u8>,
    word: &[u8],
    number: u64,
    between: &[u8],
    other: u64,
) -> Result<(), AllocError>
    ensures { OnOk result (text.new.items ≡ text.old.items ++ (word.now ++ decimal number ++ between.now ++ decimal other)) }
{
    push_word(text, word, number)?;
    push_word(text, between, other)
}
