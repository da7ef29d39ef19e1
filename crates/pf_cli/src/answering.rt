ghost use Rattle.std.specs.Prelude.{◌≡◌, ◌-◌, ◌^◌, ◌<◌, [], IfOk, IfErr};
ghost use Rattle.pf_vocabulary.specs.Fault.Faults.{CountsWrites, IsUnwritten};
ghost use Rattle.pf_cli.specs.Tasks.{AnswersMade, IsQuietIfDone};

use pf_stream::sink::Sink;
use pf_stream::writing::write_out;
use pf_vocabulary::fault::answer::Answer;
use pf_vocabulary::fault::ending::Ending;
use pf_vocabulary::fault::fault::Fault;

/// Writes the text of an answer that was made whole. The writer's count of failures must be below `u64::MAX` before the call.
///
/// # Errors
///
/// The fault for which it was not made, and then nothing was written; `Write` where the writer fails or takes nothing: a front
/// of the text was written.
pub(crate) fn write_answer<W: Sink>(
    made: Result<Answer, Fault>,
    writer: &mut W,
) -> Result<Ending, Fault>
    requires writes { W.failed writer.old < 2 ^ 64 - 1 }
    requires unwritten { IfErr made IsUnwritten }
    ensures made { AnswersMade made result (W.contents writer.old) (W.contents writer.new) }
    ensures quiet { IfOk made (λ answer. answer.ending.notes.items ≡ []) → IfOk result (λ ending. ending.notes.items ≡ []) }
    ensures done { IfOk made (λ answer. IsQuietIfDone answer.ending) → IfOk result IsQuietIfDone }
    ensures writes { CountsWrites result (W.failed writer.old) (W.failed writer.new) }
{
    match made {
        Ok(answer) => match write_out(writer, &answer.text) {
            Ok(()) => Ok(answer.ending),
            Err(_) => Err(Fault::Write),
        },
        Err(fault) => Err(fault),
    }
}
