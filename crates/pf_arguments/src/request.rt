ghost use Rattle.std.specs.Prelude.{◌≡◌};
ghost use Rattle.pf_arguments.specs.declared.request.WordsFault.TheVariants.{NoMemory};

use crate::desk_words::DeskWords;
use crate::script_pair::ScriptPair;
use crate::task::Task;
use crate::telling::Telling;
use std::alloc::AllocError;
use thiserror::Error;

/// What the words ask for.
#[derive(Drop)]
pub enum Request {
    /// To do this with the script or the list of this file, or of standard input, and to tell so much of it.
    Do(Task, Option<String>, Telling),
    /// To tell what differs between two scripts, and so much of each.
    Compare(ScriptPair, Telling),
    /// To sit at a desk, whose lines are those of standard input.
    Sit(DeskWords),
    /// To show this text: help, or the version.
    Show(String),
}

/// Why the words ask for nothing.
#[derive(Debug, Drop, Error)]
pub enum WordsFault {
    /// They are not the program's: the text says why, with a hint where something would be right.
    #[error("the words are refused")]
    Refused(Vec<u8>),
    /// The grammar takes them, and they ask for nothing: what is told of that.
    #[error("the words are mistaken")]
    Mistaken(Vec<u8>),
    /// Memory was refused.
    #[error("out of memory")]
    NoMemory,
}

impl From<AllocError> for WordsFault {
    ghost from_gives = { λ _ f. f ≡ NoMemory };

    fn from(_error: AllocError) -> WordsFault {
        WordsFault::NoMemory
    }
}
