ghost use Rattle.std.specs.Prelude.{◌≡◌, ◌++◌, OnOk};
ghost use Rattle.pf_script.specs.Check.Faults.{message_text, others_text};
ghost use Rattle.pf_script.specs.Messages.Lines.{FaultMessage};

use crate::messages::telling::Message;
use pf_text::numbers::push_number;
use std::alloc::{AllocError, Global};
use std::marker::Model;

/// The lines of messages. Of all that settings are lacking the first alone has some.
#[derive(Drop)]
pub struct FaultLines {
    // The lines up to the first message that settings are lacking, and that one without its end.
    head: Vec<u8>,
    // Its hint, and the lines after it.
    tail: Vec<u8>,
    // How many records lack settings.
    lacking: u64,
    // How many messages there are beside.
    others: u64,
}

impl Model for FaultLines {
    ghost use Rattle.pf_script.specs.Check.Lines.{Lines};

    ghost Value = { Lines };

    ghost view = { λ l. record { head = l.head.items; tail = l.tail.items; lacking = l.lacking; others = l.others } };
}

/// Appends the lines of a message.
pub(crate) fn push_message(text: &mut Vec<u8>, message: &Message) -> Result<(), AllocError>
    ensures { OnOk result (text.new.items ≡ text.old.items ++ message_text message.now) }
{
    text.extend_from_slice(&message.what)?;
    text.extend_from_slice(b"\n")?;
    text.extend_from_slice(&message.hint)
}

/// Appends how many more records lack settings.
fn push_others(text: &mut Vec<u8>, others: u64) -> Result<(), AllocError>
    ensures { OnOk result (text.new.items ≡ text.old.items ++ others_text others) }
{
    if others == 0 {
        return Ok(());
    }
    text.extend_from_slice(b", by ")?;
    push_number(text, others)?;
    text.extend_from_slice(b" more records too")
}

impl FaultLines {
    ghost use Rattle.std.specs.Prelude.{◌≡◌, ◌<◌, ◌-◌, ◌^◌, IfOk, OnOk};
    ghost use Rattle.pf_script.specs.Check.Lines.{after_end, after_lacking, after_message, after_own, count_of, no_lines, text_of};

    /// None yet.
    pub(crate) fn new(alloc: Global) -> Self
        ensures { result ≡ no_lines }
    {
        FaultLines {
            head: Vec::new(alloc),
            tail: Vec::new(alloc),
            lacking: 0,
            others: 0,
        }
    }

    /// A record lacks settings.
    fn add_lacking(&mut self, message: &Message) -> Result<(), AllocError>
        requires { self.old.lacking < 2 ^ 64 - 1 }
        ensures { OnOk result (self.new ≡ after_lacking message.now self.old) }
    {
        if self.lacking == 0 {
            self.head.extend_from_slice(&message.what)?;
            self.tail.extend_from_slice(&message.hint)?;
        }
        self.lacking += 1;
        Ok(())
    }

    /// A record has another fault.
    fn add_own(&mut self, message: &Message) -> Result<(), AllocError>
        requires { self.old.others < 2 ^ 64 - 1 }
        ensures { OnOk result (self.new ≡ after_own message.now self.old) }
    {
        if self.lacking == 0 {
            push_message(&mut self.head, message)?;
        } else {
            push_message(&mut self.tail, message)?;
        }
        self.others += 1;
        Ok(())
    }

    /// A record is bad.
    pub(crate) fn add(&mut self, message: &Message) -> Result<(), AllocError>
        requires lacking { self.old.lacking < 2 ^ 64 - 1 }
        requires others { self.old.others < 2 ^ 64 - 1 }
        ensures { OnOk result (self.new ≡ after_message self.old message.now) }
    {
        if message.lacks {
            self.add_lacking(message)
        } else {
            self.add_own(message)
        }
    }

    /// How many messages are told.
    pub fn count(&self) -> u64
        requires { self.now.others < 2 ^ 64 - 1 }
        ensures { result ≡ count_of self.now }
    {
        self.others + self.lacking.min(1)
    }

    /// The script ends here, and lacks settings: that is told where nothing else is.
    pub(crate) fn end(&mut self, message: &Message) -> Result<(), AllocError>
        requires lacking { self.old.lacking < 2 ^ 64 - 1 }
        requires others { self.old.others < 2 ^ 64 - 1 }
        ensures { OnOk result (self.new ≡ after_end message.now self.old) }
    {
        if self.count() > 0 {
            return Ok(());
        }
        self.add_lacking(message)
    }

    /// Their text.
    pub fn into_text(self) -> Result<Vec<u8>, AllocError>
        ensures { IfOk result (λ text. text.items ≡ text_of self) }
    {
        let FaultLines {
            head: mut text,
            tail,
            lacking,
            others: _,
        } = self;
        if lacking > 0 {
            push_others(&mut text, lacking - 1)?;
            text.push(b'\n')?;
            text.extend_from_slice(&tail)?;
        }
        Ok(text)
    }
}
