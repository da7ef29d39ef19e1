use pf_stream::reading::ReadingFault;
use pf_vocabulary::fault::fault::Fault;
use pf_vocabulary::fault::range_fault::RangeFault;
use thiserror::Error;

/// Why a script was not run or drilled to its end. It is shown as the line that the program tells of it.
#[derive(Clone, Copy, Debug, PartialEq, Eq, Error)]
pub enum RunFault {
    /// A record, counted from 1, that is none of the script's.
    #[error("bad record {number}")]
    BadLine {
        /// Its number.
        number: u64,
    },
    /// The script has more than 16,777,216 bytes.
    #[error("the script is longer than 16777216 bytes")]
    ScriptTooLong,
    /// The range of the format can't be shown of the slots stepped.
    #[error("{0}")]
    BadRange(RangeFault),
    /// The reader failed.
    #[error("cannot read the script")]
    ReadFault,
    /// The writer failed, or took none of the bytes offered.
    #[error("cannot write the output")]
    WriteFault,
    /// Memory was refused.
    #[error("out of memory")]
    NoMemory,
    /// The readers' table of a drill gives no reader's place.
    #[error("no place for a reader")]
    NoViewer,
    /// The readers' table of a drill gives no entry, or its snapshot takes no further owner.
    #[error("no place for a reader")]
    Unread,
    /// A gate of a drill stayed shut.
    #[error("a gate stayed shut")]
    GateShut,
}

impl RunFault {
    ghost use Rattle.std.specs.Prelude.{◌≡◌};
    ghost use Rattle.pf_cli.specs.RunFaults.{code_of};

    /// Its number in the table of refusals.
    pub fn code(self) -> u64
        ensures { result ≡ code_of self }
    {
        match self {
            RunFault::NoViewer => 34,
            RunFault::Unread => 37,
            RunFault::BadLine { number: _ } => 50,
            RunFault::ReadFault => 51,
            RunFault::WriteFault => 52,
            RunFault::ScriptTooLong => 53,
            RunFault::GateShut => 54,
            RunFault::BadRange(_) => 55,
            RunFault::NoMemory => 90,
        }
    }
}

impl From<Fault> for RunFault {
    ghost use Rattle.std.specs.Prelude.{◌≡◌};
    ghost use Rattle.pf_cli.specs.RunFaults.{run_fault};

    ghost from_gives = { λ fault f. f ≡ run_fault fault };

    fn from(fault: Fault) -> Self {
        match fault {
            Fault::BadRecord(number) => RunFault::BadLine { number },
            Fault::TooLong => RunFault::ScriptTooLong,
            Fault::BadRange(range) => RunFault::BadRange(range),
            Fault::Read => RunFault::ReadFault,
            Fault::Write => RunFault::WriteFault,
            Fault::NoMemory => RunFault::NoMemory,
            Fault::NoViewer => RunFault::NoViewer,
            Fault::Unread => RunFault::Unread,
            Fault::GateShut => RunFault::GateShut,
        }
    }
}

impl From<ReadingFault> for RunFault {
    ghost use Rattle.std.specs.Prelude.{◌≡◌};
    ghost use Rattle.pf_stream.specs.Faults.{fault_of_reading};
    ghost use Rattle.pf_cli.specs.RunFaults.{run_fault};

    ghost from_gives = { λ reading f. f ≡ run_fault (fault_of_reading reading) };

    fn from(fault: ReadingFault) -> Self {
        RunFault::from(Fault::from(fault))
    }
}
