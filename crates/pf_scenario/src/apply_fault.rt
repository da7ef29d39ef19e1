ghost use Rattle.std.specs.Prelude.{◌≡◌};
ghost use Rattle.pf_scenario.specs.declared.apply_fault.ApplyFault.TheVariants.{NoMemory};

use crate::fault::EditFault;
use std::alloc::AllocError;
use std::error::Error;
use std::fmt;

/// Why a change was not applied.
#[derive(Clone, Copy, Debug, PartialEq, Eq)]
pub enum ApplyFault {
    /// The change is refused.
    Refused(EditFault),
    /// Memory was refused.
    NoMemory,
}

impl fmt::Display for ApplyFault {
    fn fmt<W: fmt::Write>(&self, f: &mut fmt::Formatter<W>) -> fmt::Result {
        match self {
            ApplyFault::Refused(fault) => fault.fmt(f),
            ApplyFault::NoMemory => f.write_str("memory was refused"),
        }
    }
}

impl Error for ApplyFault {}

impl From<AllocError> for ApplyFault {
    ghost from_gives = { λ _ f. f ≡ NoMemory };

    fn from(_error: AllocError) -> ApplyFault {
        ApplyFault::NoMemory
    }
}
