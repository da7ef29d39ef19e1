ghost use Rattle.std.specs.Prelude.{◌≡◌};
ghost use Rattle.pf_share.specs.Refusals.{open_fault_code};

use pf_desk::fault::OpenFault as DeskFault;
use std::alloc::AllocError;
use std::error::Error;
use std::fmt;

/// Why a shared desk is not opened.
#[derive(Clone, Copy, Debug, PartialEq, Eq)]
pub enum OpenFault {
    /// The distance of the checkpoints is not 1 to `LARGEST_DISTANCE` of pf_scenario, or there are not 1 to
    /// `MOST_PASSES` passes, or not 1 to `MOST_READERS` readers.
    BadSettings,
    /// The readers' table gives no reader's place.
    NoViewer,
    /// Memory was refused.
    NoMemory,
}

impl OpenFault {
    /// Its number in the table of refusals, 33, 34 or 90.
    pub fn code(self) -> u64
        ensures { result ≡ open_fault_code self }
    {
        match self {
            OpenFault::BadSettings => 33,
            OpenFault::NoViewer => 34,
            OpenFault::NoMemory => 90,
        }
    }
}

impl From<AllocError> for OpenFault {
    ghost use Rattle.pf_share.specs.declared.fault.OpenFault.TheVariants.{NoMemory};

    ghost from_gives = { λ _ fault. fault ≡ NoMemory };

    fn from(_error: AllocError) -> Self {
        OpenFault::NoMemory
    }
}

impl From<DeskFault> for OpenFault {
    ghost use Rattle.pf_share.specs.Opening.{fault_of_desk};

    ghost from_gives = { λ fault f. f ≡ fault_of_desk fault };

    fn from(fault: DeskFault) -> Self {
        match fault {
            DeskFault::BadSettings => OpenFault::BadSettings,
            DeskFault::NoMemory => OpenFault::NoMemory,
        }
    }
}

impl fmt::Display for OpenFault {
    fn fmt<W: fmt::Write>(&self, f: &mut fmt::Formatter<W>) -> fmt::Result {
        f.write_str(match self {
            OpenFault::BadSettings => {
                "the checkpoint distance, or the number of passes or readers, is out of its limits"
            }
            OpenFault::NoViewer => "there is no place for a reader",
            OpenFault::NoMemory => "memory was refused",
        })
    }
}

impl Error for OpenFault {}
