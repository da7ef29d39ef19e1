ghost use Rattle.std.specs.Prelude.{◌≡◌, ◌++◌, IfOk, OnOk};
ghost use Rattle.pf_message.specs.Form.{file_front, hint_line, position_front};
ghost use Rattle.pf_script.specs.FaultNotes.FileFaults.{file_fault_line, file_fault_of};
ghost use Rattle.pf_journal_file.specs.Faults.{IsOutcome, IsUnhad, beside, desk_hint, fault_hint, fault_of_adding, fault_of_kind, fault_of_opening, fault_of_reading, fault_text, hint_behind, status_of, unwritten_line};

use crate::journals::OpenFault;
use pf_journal::journal_error::JournalError;
use pf_message::form::{push_file_front, push_hint, push_position_front};
use pf_message::position::Position;
use pf_message::shell::push_shell_word;
use pf_script::fault_notes::file_fault::{FileFault, file_fault_line};
use pf_text::file_name::push_file;
use pf_vocabulary::fault::ending::Ending;
use pf_vocabulary::fault::fault::Fault;
use pf_vocabulary::fault::status::Status;
use std::alloc::{AllocError, Global};
use std::io::ErrorKind;

/// Why a file keeps no session's records, or keeps them no longer.
#[derive(Clone, Copy)]
pub enum JournalFault {
    /// Another process has it open.
    InUse,
    /// It can't be opened or read, by the kind of the failure.
    Unread(ErrorKind),
    /// The file beside it, whose name has `-wal` after, can't be made or opened, by the kind of the failure.
    UnreadBeside(ErrorKind),
    /// Its first record is no heading of a journal.
    NoHeading,
    /// The line of the record of this number is damaged, the heading's being the first.
    Damaged(usize),
    /// A script is named too, and it has records already.
    HasRecords,
    /// A record of the script has more bytes than one of a journal may have.
    LongRecord,
    /// It can't be written.
    Unwritten,
    /// Memory was refused.
    NoMemory,
}

impl JournalFault {
    /// Why a file was not opened.
    pub(crate) fn of_opening(fault: OpenFault) -> Self
        ensures fault { result ≡ fault_of_opening fault }
        ensures unhad { IsUnhad result }
    {
        match fault {
            OpenFault::Busy => JournalFault::InUse,
            OpenFault::Failed(kind) => JournalFault::of_kind(kind),
            OpenFault::FailedBeside(ErrorKind::OutOfMemory) => JournalFault::NoMemory,
            OpenFault::FailedBeside(kind) => JournalFault::UnreadBeside(kind),
            OpenFault::NoMemory => JournalFault::NoMemory,
        }
    }

    /// Why a file can't be opened or read, by the kind of the failure.
    fn of_kind(kind: ErrorKind) -> Self
        ensures fault { result ≡ fault_of_kind kind }
        ensures unhad { IsUnhad result }
    {
        match kind {
            ErrorKind::OutOfMemory => JournalFault::NoMemory,
            _ => JournalFault::Unread(kind),
        }
    }

    /// Why a file that was opened was not read.
    pub(crate) fn of_reading(error: JournalError) -> Self
        ensures fault { result ≡ fault_of_reading error }
        ensures unhad { IsUnhad result }
    {
        match error {
            JournalError::OutOfMemory => JournalFault::NoMemory,
            JournalError::File(why) => JournalFault::of_kind(why.kind()),
            _ => JournalFault::Unread(ErrorKind::Other),
        }
    }

    /// Why a journal was not opened or added to.
    pub fn of_adding(error: JournalError) -> Self
        ensures { result ≡ fault_of_adding error }
    {
        match error {
            JournalError::File(_) | JournalError::TooLong => JournalFault::Unwritten,
            JournalError::NoHeading => JournalFault::NoHeading,
            JournalError::Damaged(record) => JournalFault::Damaged(record),
            JournalError::LongLine => JournalFault::LongRecord,
            JournalError::OutOfMemory => JournalFault::NoMemory,
        }
    }

    /// The status that a session ends with for it.
    fn status(self) -> Status
        ensures { result ≡ status_of self }
    {
        match self {
            JournalFault::InUse
            | JournalFault::Unread(_)
            | JournalFault::UnreadBeside(_)
            | JournalFault::Unwritten => Status::StreamFailed,
            JournalFault::HasRecords => Status::BadWords,
            JournalFault::NoHeading | JournalFault::Damaged(_) | JournalFault::LongRecord => {
                Status::BadScript
            }
            JournalFault::NoMemory => Status::NoMemory,
        }
    }

    /// What a session with a journal of this name ends with for it, and what is told of that: what is wrong with the file, and with
    /// `hints` what would be right.
    ///
    /// # Errors
    ///
    /// `NoMemory` where memory is refused for the text.
    pub fn outcome(self, alloc: Global, file: &[u8], hints: bool) -> Result<Ending, Fault>
        ensures { IsOutcome file.now hints self result }
    {
        match self.text(alloc, file, hints) {
            Ok(text) => Ok(Ending {
                status: self.status(),
                notes: text,
            }),
            Err(_) => Err(Fault::NoMemory),
        }
    }

    /// What is told of it.
    fn text(self, alloc: Global, file: &[u8], hints: bool) -> Result<Vec<u8>, AllocError>
        ensures { IfOk result (λ text. text.items ≡ fault_text file.now self ++ hint_behind file.now hints self) }
    {
        let mut text = Vec::new(alloc);
        self.push_text(alloc, &mut text, file)?;
        if hints {
            self.push_hint(alloc, &mut text, file)?;
        }
        Ok(text)
    }

    /// Appends its line.
    fn push_text(self, alloc: Global, text: &mut Vec<u8>, file: &[u8]) -> Result<(), AllocError>
        ensures { OnOk result (text.new.items ≡ text.old.items ++ fault_text file.now self) }
    {
        match self {
            JournalFault::InUse => push_of_file(text, file, b"another session has it open\n"),
            JournalFault::Unread(kind) => push_unread(alloc, text, file, kind),
            JournalFault::UnreadBeside(kind) => push_unread_beside(alloc, text, file, kind),
            JournalFault::NoHeading => push_of_line(text, file, 1, b"it is no journal\n"),
            JournalFault::Damaged(record) => push_of_line(
                text,
                file,
                record as u64,
                b"its line is damaged: a blank begins it, and a line end ends it\n",
            ),
            JournalFault::HasRecords => push_of_file(text, file, b"it has records already\n"),
            JournalFault::LongRecord => {
                text.extend_from_slice(b"a record has more than 65536 bytes\n")
            }
            JournalFault::Unwritten => push_unwritten(text, file),
            JournalFault::NoMemory => text.extend_from_slice(b"out of memory\n"),
        }
    }

    /// Appends the line of what would be right, where something can be said.
    fn push_hint(self, alloc: Global, text: &mut Vec<u8>, file: &[u8]) -> Result<(), AllocError>
        ensures { OnOk result (text.new.items ≡ text.old.items ++ fault_hint file.now self) }
    {
        match self {
            JournalFault::NoHeading => push_desk_hint(alloc, text, file),
            JournalFault::HasRecords => {
                push_hint(text, b"without SCRIPT the session goes on with them")
            }
            _ => Ok(()),
        }
    }
}

/// Appends what is told of a file, a text with its line end.
fn push_of_file(text: &mut Vec<u8>, file: &[u8], what: &[u8]) -> Result<(), AllocError>
    ensures { OnOk result (text.new.items ≡ text.old.items ++ (file_front file.now ++ what.now)) }
{
    push_file_front(text, file)?;
    text.extend_from_slice(what)
}

/// Appends what is told of a line of a file, a text with its line end.
fn push_of_line(text: &mut Vec<u8>, file: &[u8], line: u64, what: &[u8]) -> Result<(), AllocError>
    ensures { OnOk result (text.new.items ≡ text.old.items ++ (position_front file.now (record { line = line; column = 1 }) ++ what.now)) }
{
    push_position_front(text, file, Position { line, column: 1 })?;
    text.extend_from_slice(what)
}

/// Appends why a file can't be read.
fn push_unread(
    alloc: Global,
    text: &mut Vec<u8>,
    file: &[u8],
    kind: ErrorKind,
) -> Result<(), AllocError>
    ensures { OnOk result (text.new.items ≡ text.old.items ++ file_fault_line file.now (file_fault_of kind)) }
{
    text.extend_from_slice(&file_fault_line(alloc, file, FileFault::of(kind))?)
}

/// Appends why the file beside a journal can't be made or opened.
fn push_unread_beside(
    alloc: Global,
    text: &mut Vec<u8>,
    file: &[u8],
    kind: ErrorKind,
) -> Result<(), AllocError>
    ensures { OnOk result (text.new.items ≡ text.old.items ++ file_fault_line (beside file.now) (file_fault_of kind)) }
{
    let mut name = Vec::from_slice(alloc, file)?;
    name.extend_from_slice(b"-wal")?;
    push_unread(alloc, text, &name, kind)
}

/// Appends that a file can't be written.
fn push_unwritten(text: &mut Vec<u8>, file: &[u8]) -> Result<(), AllocError>
    ensures { OnOk result (text.new.items ≡ text.old.items ++ unwritten_line file.now) }
{
    text.extend_from_slice(b"cannot write ")?;
    push_file(text, file)?;
    text.extend_from_slice(b"\n")
}

/// Appends the hint that a session may begin with a file's records.
fn push_desk_hint(alloc: Global, text: &mut Vec<u8>, file: &[u8]) -> Result<(), AllocError>
    ensures { OnOk result (text.new.items ≡ text.old.items ++ hint_line (desk_hint file.now)) }
{
    let mut hint = Vec::from_slice(alloc, b"pfair desk ")?;
    push_shell_word(&mut hint, file)?;
    hint.extend_from_slice(b" begins with its records")?;
    push_hint(text, &hint)
}
