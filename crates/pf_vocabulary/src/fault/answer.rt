use crate::fault::ending::Ending;
use crate::fault::status::Status;
use std::alloc::Global;

/// What a task answers that makes its whole text before any of it is written.
#[derive(Drop)]
pub struct Answer {
    /// What is written to standard output.
    pub text: Vec<u8>,
    /// What the task ends with, once that is written.
    pub ending: Ending,
}

impl Answer {
    ghost use Rattle.std.specs.Prelude.{◌≡◌};
    ghost use Rattle.pf_vocabulary.specs.declared.fault.status.Status.TheVariants.{Done};
    ghost use Rattle.pf_vocabulary.specs.Fault.Answers.{IsQuiet};

    /// This text, and nothing to tell: what was asked for was done.
    pub fn done(alloc: Global, text: Vec<u8>) -> Self
        ensures text { result.text.items ≡ text.items }
        ensures quiet { IsQuiet Done result.ending }
    {
        Answer {
            text,
            ending: Ending::quiet(alloc, Status::Done),
        }
    }
}
