ghost use Rattle.std.specs.Prelude.{◌≡◌};
ghost use Rattle.pf_desk.specs.Refusals.{open_fault_code};

use pf_scenario::limits::LARGEST_DISTANCE;
use std::error::Error;
use std::fmt;

/// Why a desk is not opened.
#[derive(Clone, Copy, Debug, PartialEq, Eq)]
pub enum OpenFault {
    /// The distance of the checkpoints is not 1 to `LARGEST_DISTANCE` slots.
    BadSettings,
    /// Memory was refused.
    NoMemory,
}

impl OpenFault {
    /// Its number in the table of refusals, 33 or 90.
    pub fn code(self) -> u64
        ensures { result ≡ open_fault_code self }
    {
        match self {
            OpenFault::BadSettings => 33,
            OpenFault::NoMemory => 90,
        }
    }
}

impl fmt::Display for OpenFault {
    fn fmt<W: fmt::Write>(&self, f: &mut fmt::Formatter<W>) -> fmt::Result {
        match self {
            OpenFault::BadSettings => write!(
                f,
                "the checkpoint distance is not 1 to {LARGEST_DISTANCE}"
            ),
            OpenFault::NoMemory => f.write_str("memory was refused"),
        }
    }
}

impl Error for OpenFault {}
