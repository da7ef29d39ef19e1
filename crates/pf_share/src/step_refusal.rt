ghost use Rattle.std.specs.Prelude.{◌≡◌};
ghost use Rattle.pf_share.specs.Refusals.{step_refusal_code};

use std::alloc::AllocError;
use std::error::Error;
use std::fmt;

/// Why a step is not taken. It is no entry then.
#[derive(Clone, Copy, Debug, PartialEq, Eq)]
pub enum StepRefusal {
    /// A quantum lies untaken: `processor` is the lowest on which one does.
    Pending { processor: u32 },
    /// Memory was refused.
    NoMemory,
}

impl StepRefusal {
    /// Its number in the table of refusals, 32 or 90.
    pub fn code(self) -> u64
        ensures { result ≡ step_refusal_code self }
    {
        match self {
            StepRefusal::Pending { processor: _ } => 32,
            StepRefusal::NoMemory => 90,
        }
    }
}

impl From<AllocError> for StepRefusal {
    ghost use Rattle.pf_share.specs.declared.step_refusal.StepRefusal.TheVariants.{NoMemory};

    ghost from_gives = { λ _ refusal. refusal ≡ NoMemory };

    fn from(_error: AllocError) -> Self {
        StepRefusal::NoMemory
    }
}

impl fmt::Display for StepRefusal {
    fn fmt<W: fmt::Write>(&self, f: &mut fmt::Formatter<W>) -> fmt::Result {
        match self {
            StepRefusal::Pending { processor } => {
                write!(f, "a quantum lies untaken on processor {processor}")
            }
            StepRefusal::NoMemory => f.write_str("memory was refused"),
        }
    }
}

impl Error for StepRefusal {}
