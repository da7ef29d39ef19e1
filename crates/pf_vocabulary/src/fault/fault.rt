ghost use Rattle.pf_vocabulary.specs.declared.fault.fault.Fault.TheVariants as why;
ghost use Rattle.std.specs.Prelude.{◌≡◌};

use crate::fault::range_fault::RangeFault;
use crate::fault::status::Status;
use std::alloc::AllocError;
use thiserror::Error;

/// Why a task of the program was not done to its end. It is shown as the line that is told of it.
#[derive(Clone, Copy, Debug, PartialEq, Eq, Error)]
pub enum Fault {
    /// A record, counted from 1, that is none of the script's.
    #[error("bad record {0}")]
    BadRecord(u64),
    /// The script has more than 16,777,216 bytes.
    #[error("the script is longer than 16777216 bytes")]
    TooLong,
    /// The range of the format can't be shown of the slots stepped.
    #[error("{0}")]
    BadRange(RangeFault),
    /// The reader failed.
    #[error("cannot read the script")]
    Read,
    /// The writer failed, or took none of the bytes offered.
    #[error("cannot write the output")]
    Write,
    /// Memory was refused.
    #[error("out of memory")]
    NoMemory,
    /// The readers' table of a drill gives no reader's place.
    #[error("no place for a reader")]
    NoViewer,
    /// The readers' table of a drill gives no entry, its snapshot takes no further owner, or others than the drill have entries
    /// in the desk's history, which no run does.
    #[error("no place for a reader")]
    Unread,
    /// A gate of a drill stayed shut.
    #[error("a gate stayed shut")]
    GateShut,
}

impl Fault {
    ghost use Rattle.std.specs.Prelude.{◌≡◌};
    ghost use Rattle.pf_vocabulary.specs.Fault.Faults.{status_behind};

    /// The status that the program ends with.
    pub fn status(self) -> Status
        ensures { result ≡ status_behind self }
    {
        match self {
            Fault::BadRecord(_) | Fault::TooLong => Status::BadScript,
            Fault::BadRange(_) => Status::BadWords,
            Fault::Read | Fault::Write => Status::StreamFailed,
            Fault::NoMemory | Fault::NoViewer | Fault::Unread => Status::NoMemory,
            Fault::GateShut => Status::GateShut,
        }
    }
}

impl From<AllocError> for Fault {
    ghost from_gives = { λ _ f. f ≡ why.NoMemory };

    fn from(_error: AllocError) -> Self {
        Fault::NoMemory
    }
}
