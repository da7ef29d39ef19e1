ghost use Rattle.std.specs.Prelude.{◌≡◌, option_map, IfOk};
ghost use Rattle.pf_arguments.specs.Mistakes.Hints.{slot_hint, why_words};

use crate::hints::words::is_script;
use pf_message::shell::push_shell_word;
use pf_text::character::is_plain;
use std::alloc::{AllocError, Global};

/// What would be right where a word that is no slot names a script: the two words exchanged.
pub(crate) fn slot_hint(
    alloc: Global,
    file: Option<&str>,
    word: &str,
) -> Result<Vec<u8>, AllocError>
    ensures { IfOk result (λ text. text.items ≡ slot_hint (option_map (λ f. f.now) file.entry) word.now) }
{
    if !is_script(word.as_bytes()) {
        return Ok(Vec::new(alloc));
    }
    match file {
        Some(slot) => why_words(alloc, slot.as_bytes(), word.as_bytes()),
        None => why_words(alloc, b"SLOT", word.as_bytes()),
    }
}

/// The words that ask of a slot, where they can be shown as they are.
fn why_words(alloc: Global, slot: &[u8], file: &[u8]) -> Result<Vec<u8>, AllocError>
    ensures { IfOk result (λ text. text.items ≡ why_words slot.now file.now) }
{
    let mut text = Vec::new(alloc);
    if !is_plain(slot) || !is_plain(file) {
        return Ok(text);
    }
    text.extend_from_slice(b"pfair why ")?;
    push_shell_word(&mut text, slot)?;
    text.extend_from_slice(b" ")?;
    push_shell_word(&mut text, file)?;
    Ok(text)
}
