ghost use Rattle.std.specs.Prelude.{◌≡◌, ◌++◌, OnOk};
ghost use Rattle.pf_convert.specs.List.Messages.{hint_text};

use crate::list::place::Place;
use pf_message::form::push_hint;
use std::alloc::AllocError;
use std::marker::Model;

/// What is wrong at a place of a list.
#[derive(Drop)]
pub struct Message {
    /// Where.
    pub place: Place,
    /// What is wrong.
    pub text: Vec<u8>,
    /// What would be right; nothing where nothing is said of it.
    pub hint: Vec<u8>,
}

impl Model for Message {
    ghost use Rattle.pf_convert.specs.List.Messages.{Told};

    ghost Value = { Told };

    ghost view = { λ m. record { place = m.place; text = m.text.items; hint = m.hint.items } };
}

impl Message {
    ghost use Rattle.pf_convert.specs.List.Messages.{message_text};

    /// Adds the lines that tell it of a list of this name with these bytes.
    ///
    /// # Errors
    ///
    /// Where memory is refused: a front of them was added.
    pub fn push_to(&self, text: &mut Vec<u8>, file: &[u8], list: &[u8]) -> Result<(), AllocError>
        ensures { OnOk result (text.new.items ≡ text.old.items ++ message_text file.now list.now self.now) }
    {
        self.place.push_front(text, file, list)?;
        text.extend_from_slice(&self.text)?;
        text.extend_from_slice(b"\n")?;
        push_hint_line(text, &self.hint)
    }
}

/// Adds the line of a hint, where there is one.
///
/// # Errors
///
/// Where memory is refused: a front of it was added.
pub fn push_hint_line(text: &mut Vec<u8>, hint: &[u8]) -> Result<(), AllocError>
    ensures { OnOk result (text.new.items ≡ text.old.items ++ hint_text hint.now) }
{
    if hint.is_empty() {
        return Ok(());
    }
    push_hint(text, hint)
}
