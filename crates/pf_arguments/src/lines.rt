ghost use Rattle.std.specs.Prelude.{◌≡◌, ◌++◌, OnOk};
ghost use Rattle.pf_arguments.specs.Lines.{shown_character, shown_lines};

use pf_text::file_name::push_file;
use std::alloc::AllocError;

/// Appends a character of a text of lines.
fn push_character(text: &mut Vec<u8>, character: char) -> Result<(), AllocError>
    ensures { OnOk result (text.new.items ≡ text.old.items ++ shown_character character) }
{
    if character == '\n' {
        return text.extend_from_slice(b"\n");
    }
    let mut buffer = [0; 4];
    push_file(text, character.encode_utf8(&mut buffer).as_bytes())
}

/// Appends a text of lines: its characters as they are, but for Unicode's controls, the line feed aside, and marks of direction. The
/// bytes of these are each shown as `\xHH`, two digits of base 16.
///
/// # Errors
///
/// Where memory is refused: the text is given up.
#[tactic(auto, unfolding(crate::specs::Lines::shown_lines))]
pub(crate) fn push_lines(text: &mut Vec<u8>, lines: &str) -> Result<(), AllocError>
    ensures { OnOk result (text.new.items ≡ text.old.items ++ shown_lines lines.now) }
{
    for character in lines.chars() {
        push_character(text, character)?;
    }
    Ok(())
}
