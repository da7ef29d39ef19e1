ghost use Rattle.std.specs.Prelude.{◌≡◌, ◌++◌, OnOk};
ghost use Rattle.pf_answers.specs.Telling.{ready_text, taken_text, told_text};

use crate::quoted::push_quoted;
use std::alloc::AllocError;

/// Appends the answer that tells these words, which have no end of a line.
///
/// # Errors
///
/// Where memory is refused: the text is given up.
pub fn push_told(text: &mut Vec<u8>, json: bool, words: &[u8]) -> Result<(), AllocError>
    ensures { OnOk result (text.new.items ≡ text.old.items ++ told_text json words.now) }
{
    if json {
        text.extend_from_slice(b"{\"text\":")?;
        push_quoted(text, words)?;
        text.extend_from_slice(b"}\n")
    } else {
        text.extend_from_slice(words)?;
        text.extend_from_slice(b"\n")
    }
}

/// The answer to the settings.
pub fn ready(json: bool) -> &'static [u8]
    ensures { result.now ≡ ready_text json }
{
    if json {
        b"{\"ready\":true}\n"
    } else {
        b"ready\n"
    }
}

/// The answer to what has no text: the heading, a name, the length of a slot, a file that was written.
pub fn taken(json: bool) -> &'static [u8]
    ensures { result.now ≡ taken_text json }
{
    if json { b"{\"ok\":true}\n" } else { b"" }
}
