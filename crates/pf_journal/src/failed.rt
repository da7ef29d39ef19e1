use crate::journal_error::JournalError;
use sqlite_disk::Disk;

/// A file that was not read or opened, and why.
#[derive(Drop)]
pub struct Failed<D: Disk> {
    pub error: JournalError,
    pub disk: D,
}
