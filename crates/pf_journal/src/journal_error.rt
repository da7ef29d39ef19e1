use std::alloc::AllocError;
use std::io;
use thiserror::Error;

/// Why a journal was not read, opened or added to.
#[derive(Clone, Copy, Debug, Error)]
pub enum JournalError {
    /// The file failed at a call. It is to be opened again.
    #[error("{0}")]
    File(io::Error),
    /// The first line is no heading of a journal of this version.
    #[error("the file is no journal of a plan")]
    NoHeading,
    /// The line of this number is damaged, the heading's being the first: no crash leaves such a file.
    #[error("line {0} is damaged")]
    Damaged(usize),
    /// The journal has 2^60 bytes or more.
    #[error("the journal is too long")]
    TooLong,
    /// A line has no room in a batch: it has more than 65,536 bytes.
    #[error("a line is too long")]
    LongLine,
    /// Memory was refused.
    #[error("out of memory")]
    OutOfMemory,
}

impl From<io::Error> for JournalError {
    ghost use Rattle.std.specs.Prelude.{◌≡◌};
    ghost use Rattle.pf_journal.specs.declared.journal_error.JournalError.TheVariants.{File};

    ghost from_gives = { λ e j. j ≡ File e };

    fn from(error: io::Error) -> Self {
        JournalError::File(error)
    }
}

impl From<AllocError> for JournalError {
    ghost use Rattle.std.specs.Prelude.{◌≡◌};
    ghost use Rattle.pf_journal.specs.declared.journal_error.JournalError.TheVariants.{OutOfMemory};

    ghost from_gives = { λ _ j. j ≡ OutOfMemory };

    fn from(_error: AllocError) -> Self {
        JournalError::OutOfMemory
    }
}
