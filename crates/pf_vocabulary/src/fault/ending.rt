use crate::fault::status::Status;
use std::alloc::Global;

/// What a task ended with that was done.
#[derive(Drop)]
pub struct Ending {
    /// What the program exits with.
    pub status: Status,
    /// What is told on standard error: whole lines, or nothing.
    pub notes: Vec<u8>,
}

impl Ending {
    ghost use Rattle.pf_vocabulary.specs.Fault.Answers.{IsQuiet};

    /// This status, and nothing to tell.
    pub fn quiet(alloc: Global, status: Status) -> Self
        ensures { IsQuiet status result }
    {
        Ending {
            status,
            notes: Vec::new(alloc),
        }
    }
}
