ghost use Rattle.std.specs.Prelude.{◌≡◌, ◌++◌, map, OnOk};
ghost use Rattle.std.specs.Option.{option_map};
ghost use Rattle.pf_why_json.specs.Members.{comma_before, items_from, key_or_null, list_of, quoted, quoted_or_null};

use pf_notes::words::push_word;
use std::alloc::AllocError;

/// Adds a key, with what stands before it, and a number or null.
pub(crate) fn push_or_null(
    text: &mut Vec<u8>,
    key: &[u8],
    number: Option<u64>,
) -> Result<(), AllocError>
    ensures { OnOk result (text.new.items ≡ text.old.items ++ key_or_null key.now number) }
{
    match number {
        Some(number) => push_word(text, key, number),
        None => {
            text.extend_from_slice(key)?;
            text.extend_from_slice(b"null")
        }
    }
}

/// Adds a key and a text in quotes.
pub(crate) fn push_quoted(text: &mut Vec<u8>, key: &[u8], content: &[u8]) -> Result<(), AllocError>
    ensures { OnOk result (text.new.items ≡ text.old.items ++ quoted key.now content.now) }
{
    text.extend_from_slice(key)?;
    text.extend_from_slice(b"\"")?;
    text.extend_from_slice(content)?;
    text.extend_from_slice(b"\"")
}

/// Adds a key, and a text in quotes or null.
pub(crate) fn push_quoted_or_null(
    text: &mut Vec<u8>,
    key: &[u8],
    content: Option<&[u8]>,
) -> Result<(), AllocError>
    ensures { OnOk result (text.new.items ≡ text.old.items ++ quoted_or_null key.now (option_map (λ c. c.now) content.entry)) }
{
    match content {
        Some(content) => push_quoted(text, key, content),
        None => {
            text.extend_from_slice(key)?;
            text.extend_from_slice(b"null")
        }
    }
}

/// Adds a comma, but where the item is the first one.
fn push_comma(text: &mut Vec<u8>, place: usize) -> Result<(), AllocError>
    ensures { OnOk result (text.new.items ≡ text.old.items ++ comma_before place) }
{
    if place == 0 {
        return Ok(());
    }
    text.extend_from_slice(b",")
}

/// Adds these texts with commas between them.
fn push_items(text: &mut Vec<u8>, items: &[Vec<u8>]) -> Result<(), AllocError>
    ensures { OnOk result (text.new.items ≡ text.old.items ++ items_from 0 (map (λ v. v.items) items.now)) }
{
    for (place, item) in items.iter().enumerate() {
        push_comma(text, place)?;
        text.extend_from_slice(item)?;
    }
    Ok(())
}

/// Adds a key and a list of these texts.
pub(crate) fn push_list(text: &mut Vec<u8>, key: &[u8], items: &[Vec<u8>]) -> Result<(), AllocError>
    ensures { OnOk result (text.new.items ≡ text.old.items ++ list_of key.now (map (λ v. v.items) items.now)) }
{
    text.extend_from_slice(key)?;
    text.extend_from_slice(b"[")?;
    push_items(text, items)?;
    text.extend_from_slice(b"]")
}
