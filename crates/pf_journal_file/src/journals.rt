ghost use Rattle.std.specs.Prelude.{IsTrue, IfErr, IfOk};
ghost use Rattle.pf_journal.specs.Kept.{IsFound};
ghost use Rattle.pf_journal_file.specs.Faults.{IsUnhad, IsUnreadFor};

use crate::journal_fault::JournalFault;
use pf_journal::failed::Failed;
use pf_journal::found::Found;
use sqlite_disk::Disk;
use std::alloc::Global;
use std::io::ErrorKind;

/// Why the file of a journal was not opened.
#[derive(Clone, Copy)]
pub enum OpenFault {
    /// Another process has it open.
    Busy,
    /// A call of the system failed, with this kind.
    Failed(ErrorKind),
    /// So it did for the file beside it, whose name has `-wal` after.
    FailedBeside(ErrorKind),
    /// Memory was refused.
    NoMemory,
}

/// The files that keep journals.
pub trait Journals {
    /// One of them.
    type File: Disk + Drop;

    /// Opens the file at this path, and makes it where there is none. No other process opens it until it is dropped.
    ///
    /// # Errors
    ///
    /// `Busy` where another process has it open, `Failed` and `FailedBeside` where a call of the system fails, `NoMemory` where memory is refused.
    fn open(self, path: &str) -> Result<Self::File, OpenFault>
        ensures { IfOk result (λ file. IsTrue (Self.File.is_usable file)) };
}

/// The file of a journal as it is found at this path. Nothing of it is written.
///
/// # Errors
///
/// `InUse` where another process has it open, `Unread` where it can't be opened or read, `UnreadBeside` where the file beside it can't,
/// `NoMemory` where memory is refused.
pub fn find_journal<J: Journals>(
    alloc: Global,
    journals: J,
    path: &str,
) -> Result<Found<J::File>, JournalFault>
    ensures found { IfOk result (λ found. IsFound J.File.seen J.File.may_leave J.File.is_usable J.File.is_clean found) }
    ensures unhad { IfErr result IsUnhad }
{
    match journals.open(path) {
        Ok(file) => read_found(alloc, file),
        Err(fault) => Err(JournalFault::of_opening(fault)),
    }
}

/// The same, of a file that was opened.
fn read_found<D: Disk + Drop>(alloc: Global, file: D) -> Result<Found<D>, JournalFault>
    requires { IsTrue (D.Disk.is_usable file) }
    ensures found { IfOk result (λ found. IsFound D.Disk.seen D.Disk.may_leave D.Disk.is_usable D.Disk.is_clean found) }
    ensures unhad { IfErr result IsUnhad }

    // It doesn't give up by itself.
    ensures unread { IfErr result (IsUnreadFor D.Disk.faults file) }
{
    match Found::read(alloc, file) {
        Ok(found) => Ok(found),
        Err(Failed { error, disk }) => {
            drop(disk);
            Err(JournalFault::of_reading(error))
        }
    }
}
