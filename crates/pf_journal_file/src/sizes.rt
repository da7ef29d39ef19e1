ghost use Rattle.std.specs.Prelude.{◌≡◌, ◌≤◌, ◌++◌, length, IfOk, OnOk};
ghost use Rattle.pf_journal.specs.Lines.{ends_in};
ghost use Rattle.pf_journal_file.specs.Sizes.{counted_text, cut_text, long_text, sizes_line, sizes_of};

use pf_session::session::Session;
use pf_stream::reading::LONGEST_SCRIPT;
use pf_text::file_name::push_file;
use pf_text::numbers::push_number;
use std::alloc::{AllocError, Global};

/// How much a journal has that was opened.
#[derive(Clone, Copy)]
pub struct Sizes {
    /// The records after its heading.
    pub records: u64,
    /// The events that its desk holds.
    pub events: u64,
    /// The slots that were stepped.
    pub slots: u64,
    /// The bytes that were cut.
    pub cut: u64,
    /// Its script has more bytes than one may have, so that what is shown or saved of it may be refused.
    pub is_long: bool,
}

impl Sizes {
    /// Of a session that has its records, after so many bytes that were cut.
    pub fn of(session: &Session, cut: u64) -> Self
        ensures { result ≡ sizes_of session.now cut }
    {
        let (events, slots) = match session.desk() {
            Some(desk) => (desk.scenario().events().count() as u64, desk.now()),
            None => (0, 0),
        };
        Sizes {
            records: ends_in(session.script()).saturating_sub(1) as u64,
            events,
            slots,
            cut,
            is_long: session.script().len() > LONGEST_SCRIPT,
        }
    }

    /// The line that tells of them, after the name of the file.
    ///
    /// # Errors
    ///
    /// Where memory is refused.
    pub fn line(self, alloc: Global, file: &[u8]) -> Result<Vec<u8>, AllocError>
        ensures { IfOk result (λ text. text.items ≡ sizes_line file.now self) }
    {
        let mut text = Vec::new(alloc);
        push_file(&mut text, file)?;
        text.extend_from_slice(b": ")?;
        push_counted(&mut text, self.records, b" records, ")?;
        push_counted(&mut text, self.events, b" events, ")?;
        push_counted(&mut text, self.slots, b" slots")?;
        push_cut(&mut text, self.cut)?;
        push_long(&mut text, self.is_long)?;
        Ok(text)
    }
}

/// How many lines end in these bytes.
fn ends_in(bytes: &[u8]) -> usize
    ensures lines { result ≡ ends_in bytes.now }
    ensures within { result ≤ length bytes.now }
{
    let mut count = 0;
    for byte in bytes {
        if *byte == b'\n' {
            count += 1;
        }
    }
    count
}

/// Appends a number, and what there are so many of.
fn push_counted(text: &mut Vec<u8>, count: u64, words: &[u8]) -> Result<(), AllocError>
    ensures { OnOk result (text.new.items ≡ text.old.items ++ counted_text count words.now) }
{
    push_number(text, count)?;
    text.extend_from_slice(words)
}

/// Appends how many bytes were cut, where some were.
fn push_cut(text: &mut Vec<u8>, cut: u64) -> Result<(), AllocError>
    ensures { OnOk result (text.new.items ≡ text.old.items ++ cut_text cut) }
{
    if cut == 0 {
        return Ok(());
    }
    text.extend_from_slice(b"; cut ")?;
    push_counted(text, cut, b" bytes")
}

/// Appends that the script is longer than one may be, where it is, and the end of the line.
fn push_long(text: &mut Vec<u8>, is_long: bool) -> Result<(), AllocError>
    ensures { OnOk result (text.new.items ≡ text.old.items ++ long_text is_long) }
{
    if is_long {
        return text.extend_from_slice(
            b"; the script is longer than 16777216 bytes: what is shown or saved of it may be refused\n",
        );
    }
    text.extend_from_slice(b"\n")
}
