ghost use Rattle.std.specs.Prelude.{◌≡◌, ◌++◌, ℤ, OnOk};
ghost use Rattle.pf_fit_text.specs.Json.{key, key_or_null, signed_key, signed_or_null, truth};

use crate::element::push_element;
use std::alloc::{AllocError, Global};

/// Appends a key and a number.
pub(crate) fn push_key(
    alloc: Global,
    text: &mut Vec<u8>,
    word: &str,
    number: u128,
) -> Result<(), AllocError>
    ensures { OnOk result (text.new.items ≡ text.old.items ++ key word.now number) }
{
    push_element(text, &format!(in alloc; "{word}{number}")?)
}

/// Appends a key and a number that may be below 0.
pub(crate) fn push_signed(
    alloc: Global,
    text: &mut Vec<u8>,
    word: &str,
    number: i64,
) -> Result<(), AllocError>
    ensures { OnOk result (text.new.items ≡ text.old.items ++ signed_key word.now number) }
{
    push_element(text, &format!(in alloc; "{word}{number}")?)
}

/// Appends a key, and a number or null.
pub(crate) fn push_key_or_null(
    alloc: Global,
    text: &mut Vec<u8>,
    word: &str,
    number: Option<u64>,
) -> Result<(), AllocError>
    ensures { OnOk result (text.new.items ≡ text.old.items ++ key_or_null word.now number) }
{
    match number {
        Some(number) => push_key(alloc, text, word, u128::from(number)),
        None => push_element(text, &format!(in alloc; "{word}null")?),
    }
}

/// Appends a key, and a number that may be below 0, or null.
pub(crate) fn push_signed_or_null(
    alloc: Global,
    text: &mut Vec<u8>,
    word: &str,
    number: Option<i64>,
) -> Result<(), AllocError>
    ensures { OnOk result (text.new.items ≡ text.old.items ++ signed_or_null word.now number) }
{
    match number {
        Some(number) => push_signed(alloc, text, word, number),
        None => push_element(text, &format!(in alloc; "{word}null")?),
    }
}

/// Appends a key and whether something holds.
#[tactic(auto, unfolding(crate::specs::Json::truth))]
pub(crate) fn push_truth(
    alloc: Global,
    text: &mut Vec<u8>,
    word: &str,
    holds: bool,
) -> Result<(), AllocError>
    ensures { OnOk result (text.new.items ≡ text.old.items ++ truth word.now holds) }
{
    if holds {
        push_element(text, &format!(in alloc; "{word}true")?)
    } else {
        push_element(text, &format!(in alloc; "{word}false")?)
    }
}
