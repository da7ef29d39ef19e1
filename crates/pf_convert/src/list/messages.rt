ghost use Rattle.std.specs.Prelude.{◌≡◌, ◌++◌, OnOk, take};
ghost use Rattle.pf_convert.specs.List.Messages.{more_text};

use crate::list::message::Message;
use crate::list::parts::{Part, push_parts};
use std::alloc::{AllocError, Global};
use std::marker::Model;

/// The most messages that are told.
pub const MOST_MESSAGES: usize = 20;

/// Messages of a list, in order.
#[derive(Drop)]
pub struct Messages {
    messages: Vec<Message>,
}

impl Model for Messages {
    ghost use Rattle.std.specs.Prelude.{List};
    ghost use Rattle.pf_convert.specs.List.Messages.{Told};

    ghost Value = { List Told };

    ghost view = { λ m. m.messages.items };
}

impl Messages {
    ghost use Rattle.std.specs.Prelude.{◌≡◌, ◌++◌, ◌∷◌, [], OnOk, length};
    ghost use Rattle.pf_convert.specs.List.Messages.{messages_text};

    /// No messages.
    pub fn new(alloc: Global) -> Self
        ensures { result ≡ [] }
    {
        Messages {
            messages: Vec::new(alloc),
        }
    }

    /// Adds a message.
    ///
    /// # Errors
    ///
    /// Where memory is refused: the messages are as before.
    pub fn push(&mut self, message: Message) -> Result<(), AllocError>
        ensures { OnOk result (self.new ≡ self.old ++ message ∷ []) }
    {
        self.messages.push(message)?;
        Ok(())
    }

    /// How many messages there are.
    pub fn len(&self) -> usize
        ensures { result ≡ length self.now }
    {
        self.messages.len()
    }

    /// The messages.
    pub fn as_slice(&self) -> &[Message]
        ensures { result.now ≡ self.now }
    {
        &self.messages
    }

    /// Adds the messages of a list of this name with these bytes to a text, 20 of them at most, and how many there are more.
    ///
    /// # Errors
    ///
    /// Where memory is refused: a front of it was added.
    #[tactic(auto, unfolding(crate::specs::List::Messages::messages_text))]
    pub fn push_to(&self, text: &mut Vec<u8>, file: &[u8], list: &[u8]) -> Result<(), AllocError>
        ensures { OnOk result (text.new.items ≡ text.old.items ++ messages_text file.now list.now self.now) }
    {
        let first = first_messages(&self.messages);
        for message in first {
            message.push_to(text, file, list)?;
        }
        push_more(text, self.len())
    }
}

/// The messages that are told.
fn first_messages(messages: &[Message]) -> &[Message]
    ensures { result.now ≡ take MOST_MESSAGES messages.now }
{
    let end = MOST_MESSAGES.min(messages.len());
    &messages[..end]
}

/// Adds how many messages there are more than are told.
fn push_more(text: &mut Vec<u8>, count: usize) -> Result<(), AllocError>
    ensures { OnOk result (text.new.items ≡ text.old.items ++ more_text count) }
{
    if count <= MOST_MESSAGES {
        return Ok(());
    }
    push_parts(
        text,
        &[
            Part::Words("and "),
            Part::Number((count - MOST_MESSAGES) as u64),
            Part::Words(" more\n"),
        ],
    )
}
