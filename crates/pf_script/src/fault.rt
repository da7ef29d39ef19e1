ghost use Rattle.std.specs.Prelude.{◌≡◌};
ghost use Rattle.pf_script.specs.declared.fault.ScriptFault.TheVariants as fault;
ghost use Rattle.pf_script.specs.Faults.{fault_of_script};

use crate::version::Version;
use pf_vocabulary::fault::fault::Fault;
use std::alloc::AllocError;

/// Why a record is none of a script's.
#[derive(Clone, Copy)]
pub enum Reason {
    /// Its word names no record of this version.
    NoRecord(Version),
    /// The word after `strict` names no change of this version.
    NoChange(Version),
    /// The word after `alter,ID` names no event of this version.
    NoEvent(Version),
    /// The settings have not come yet.
    NoSettings,
    /// The settings have come already.
    LateSettings,
    /// The heading names no version.
    NoVersion,
    /// A field is no number.
    NoNumber,
    /// A number is not within 1 to `most`.
    Outside {
        /// The number.
        number: u64,
        /// The greatest that it may be.
        most: u64,
    },
    /// So many fields are expected.
    Fields(usize),
    /// A step has one field or two.
    StepFields,
}

/// What is wrong with a record.
#[derive(Clone, Copy)]
pub struct RecordFault {
    /// The field that is at fault, counted from 1. The first one names the record.
    pub field: usize,
    /// Why.
    pub reason: Reason,
}

/// A record that is none of a script's, or that a script lacks.
#[derive(Clone, Copy)]
pub struct BadRecord {
    /// Its number, counted from 1.
    pub number: u64,
    /// The line of the file on which it begins, counted from 1.
    pub line: u64,
    /// What is wrong with it.
    pub fault: RecordFault,
}

/// Why a script gave no next record.
#[derive(Clone, Copy)]
pub enum ScriptFault {
    /// The next record is none of a script's.
    Bad(BadRecord),
    /// The script ended before its settings: this is the record that it lacks.
    Missing(BadRecord),
    /// Memory was refused.
    Memory,
}

impl From<AllocError> for ScriptFault {
    ghost from_gives = { λ _ f. f ≡ fault.Memory };

    fn from(_error: AllocError) -> Self {
        ScriptFault::Memory
    }
}

impl From<ScriptFault> for Fault {
    ghost from_gives = { λ script f. f ≡ fault_of_script script };

    fn from(fault: ScriptFault) -> Self {
        match fault {
            ScriptFault::Bad(bad) | ScriptFault::Missing(bad) => Fault::BadRecord(bad.number),
            ScriptFault::Memory => Fault::NoMemory,
        }
    }
}
