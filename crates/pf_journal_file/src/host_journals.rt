ghost use Rattle.std.specs.Prelude.{◌≡◌, IfErr, IfOk};
ghost use Rattle.std.specs.declared.io.ErrorKind.{ErrorKind};
ghost use Rattle.pf_journal_file.specs.Hosts.{fault_of_host, fault_of_watching};
ghost use Rattle.pf_journal_file.specs.Watches.{IsFresh, inner_of};

use crate::journals::{Journals, OpenFault};
use crate::watch::Watch;
use sqlite_std_file::{FileFrom, OpenError, Unknown, open};
use std::fs;
use std::fs::OpenOptions;
use std::io::ErrorKind;

/// The files of the operating system. One is locked while it is open, and its path is watched. An empty file is made beside it, whose
/// name has `-wal` after, since the ported opening is one of databases with their logs.
#[derive(Drop)]
pub struct HostJournals<'r> {
    rt: &'r HostRuntime,
}

impl<'r> HostJournals<'r> {
    /// Those that this runtime reaches.
    pub fn new(rt: &'r HostRuntime) -> Self {
        HostJournals { rt }
    }
}

impl<'r> Journals for HostJournals<'r> {
    // Of a write that a crash tears it is supposed that each byte is as it was or as it was written: then the file opens again. What
    // it has of records needs no such thing.
    type File = Watch<'r, FileFrom<Unknown>>;

    fn open(self, path: &str) -> Result<Watch<'r, FileFrom<Unknown>>, OpenFault> {
        match open(self.rt, path, Unknown) {
            Ok(files) => watch_of(self.rt, files.db, path),
            Err(OpenError::Io(why)) if fails_beside(self.rt, path) => {
                Err(OpenFault::FailedBeside(why.kind()))
            }
            Err(fault) => Err(fault_of(fault)),
        }
    }
}

/// Whether a file was not opened for the one beside it: it opens by itself, and its path is no link, after which the one beside it
/// would have another name.
fn fails_beside(rt: &HostRuntime, path: &str) -> bool {
    match fs::symlink_metadata(rt, path) {
        Ok(found) if found.is_file() => {
            let mut options = OpenOptions::new();
            options.read(true).write(true);
            options.open(rt, path).is_ok()
        }
        _ => false,
    }
}

/// A file that was just opened at this path, which is watched from now on.
fn watch_of<'r>(
    rt: &'r HostRuntime,
    file: FileFrom<Unknown>,
    path: &str,
) -> Result<Watch<'r, FileFrom<Unknown>>, OpenFault>
    ensures watch { IfOk result (λ w. (inner_of w ≡ file) × IsFresh w) }
    ensures unwatched { IfErr result (λ fault. (kind : ErrorKind) × (fault ≡ fault_of_watching kind)) }
{
    match Watch::new(rt, file, path) {
        Ok(watch) => Ok(watch),
        Err(fault) => Err(fault_of_watching(fault.kind())),
    }
}

/// Why a file that was opened is not watched, by the kind of the failure.
fn fault_of_watching(kind: ErrorKind) -> OpenFault
    ensures { result ≡ fault_of_watching kind }
{
    match kind {
        ErrorKind::WouldBlock => OpenFault::Busy,
        _ => OpenFault::Failed(kind),
    }
}

/// Why a file was not opened. One beside which a rollback journal of a database lies is not.
fn fault_of(fault: OpenError) -> OpenFault
    ensures { result ≡ fault_of_host fault }
{
    match fault {
        OpenError::Io(why) => OpenFault::Failed(why.kind()),
        OpenError::OutOfMemory => OpenFault::NoMemory,
        OpenError::Busy => OpenFault::Busy,
        OpenError::HotJournal => OpenFault::Failed(ErrorKind::Other),
    }
}
