ghost use Rattle.pf_convert.specs.Conversion.Answers.{IsTold};

use pf_vocabulary::fault::answer::Answer;
use pf_vocabulary::fault::ending::Ending;
use pf_vocabulary::fault::status::Status;
use std::alloc::Global;

/// The answer that only has these notes, of a list that is none or has no plan.
pub fn bad_list(alloc: Global, notes: Vec<u8>) -> Answer
    ensures { IsTold notes.items result }
{
    Answer {
        text: Vec::new(alloc),
        ending: Ending {
            status: Status::BadScript,
            notes,
        },
    }
}
