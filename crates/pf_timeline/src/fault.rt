ghost use Rattle.std.specs.Prelude.{◌≡◌};
ghost use Rattle.pf_timeline.specs.declared.fault.NewFault.TheVariants as new_fault;
ghost use Rattle.pf_timeline.specs.declared.fault.StepFault.TheVariants as step_fault;

use std::alloc::AllocError;
use std::error::Error;
use std::fmt;

/// Why a timeline is not made.
#[derive(Clone, Copy, Debug, PartialEq, Eq)]
pub enum NewFault {
    /// The distance of the checkpoints is not 1 to `LARGEST_DISTANCE` slots.
    BadSettings,
    /// Memory was refused.
    NoMemory,
}

impl fmt::Display for NewFault {
    fn fmt<W: fmt::Write>(&self, f: &mut fmt::Formatter<W>) -> fmt::Result {
        f.write_str(match self {
            NewFault::BadSettings => "the settings are out of their limits",
            NewFault::NoMemory => "memory was refused",
        })
    }
}

impl Error for NewFault {}

impl From<AllocError> for NewFault {
    ghost from_gives = { λ _ f. f ≡ new_fault.NoMemory };

    fn from(_error: AllocError) -> NewFault {
        NewFault::NoMemory
    }
}

/// Why a timeline takes no slot.
#[derive(Clone, Copy, Debug, PartialEq, Eq)]
pub enum StepFault {
    /// Its slots reach to the horizon.
    AtHorizon,
    /// Memory was refused.
    NoMemory,
}

impl fmt::Display for StepFault {
    fn fmt<W: fmt::Write>(&self, f: &mut fmt::Formatter<W>) -> fmt::Result {
        f.write_str(match self {
            StepFault::AtHorizon => "the slots reach to the horizon",
            StepFault::NoMemory => "memory was refused",
        })
    }
}

impl Error for StepFault {}

impl From<AllocError> for StepFault {
    ghost from_gives = { λ _ f. f ≡ step_fault.NoMemory };

    fn from(_error: AllocError) -> StepFault {
        StepFault::NoMemory
    }
}
