ghost use Rattle.std.specs.Prelude.{◌≡◌};
ghost use Rattle.pf_stream.specs.declared.output_fault.OutputFault.TheVariants as fault;
ghost use Rattle.pf_stream.specs.Faults.{fault_of_output};

use crate::writing::WriteFault;
use pf_vocabulary::fault::fault::Fault;
use std::alloc::AllocError;

/// Why a text was not put or written.
#[derive(Clone, Copy)]
pub enum OutputFault {
    /// The writer failed, or took none of the bytes offered.
    Write,
    /// Memory was refused.
    Memory,
}

impl From<WriteFault> for OutputFault {
    ghost from_gives = { λ _ f. f ≡ fault.Write };

    fn from(_fault: WriteFault) -> Self {
        OutputFault::Write
    }
}

impl From<AllocError> for OutputFault {
    ghost from_gives = { λ _ f. f ≡ fault.Memory };

    fn from(_error: AllocError) -> Self {
        OutputFault::Memory
    }
}

impl From<OutputFault> for Fault {
    ghost from_gives = { λ output f. f ≡ fault_of_output output };

    fn from(fault: OutputFault) -> Self {
        match fault {
            OutputFault::Write => Fault::Write,
            OutputFault::Memory => Fault::NoMemory,
        }
    }
}
