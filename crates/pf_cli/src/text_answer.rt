ghost use Rattle.std.specs.Prelude.{◌≡◌, ◌≤◌, [], None, length, IfErr, IfOk, IfSome};
ghost use Rattle.pf_vocabulary.specs.Fault.Faults.{IsUnwritten};
ghost use Rattle.pf_stream.specs.Reading.{longest_script};
ghost use Rattle.pf_convert.specs.Words.Reading.{IsConversion};
ghost use Rattle.pf_arguments.specs.Asked.{IsSound};
ghost use Rattle.pf_cli.specs.Texts.{CheckMade, FitOfList, ListConverted, TextMade};
ghost use Rattle.pf_cli.specs.Tasks.{IsCarriedOut, IsOfScript, IsQuietIfDone};

use pf_arguments::task::Task;
use pf_check_run::check_run::check_run;
use pf_commands::check::check;
use pf_convert::conversion::convert::convert;
use pf_convert::fit::answer::fit_answer;
use pf_convert::words::conversion::Conversion;
use pf_convert::words::fit_asked::FitAsked;
use pf_vocabulary::fault::answer::Answer;
use pf_vocabulary::fault::fault::Fault;
use std::alloc::Global;

/// What a task makes of a text, in a file of this name, without the desk of a script: a check of one, with hints, where they are
/// asked for, or an answer of a list of tasks; none where the task is one of a script that is carried out.
pub(crate) fn text_answer(
    alloc: Global,
    task: &Task,
    file: &[u8],
    text: &[u8],
    hints: bool,
) -> Option<Result<Answer, Fault>>
    requires short { length text.now ≤ longest_script }
    requires sound { IsSound task.now }
    ensures made { TextMade hints task.now file.now text.now result }
    ensures unwritten { IfSome result (λ made. IfErr made IsUnwritten) }
    ensures quiet { IsOfScript task.now → IfSome result (λ made. IfOk made (λ answer. IsQuietIfDone answer.ending)) }
    ensures carried { result ≡ None → IsCarriedOut task.now }
{
    match task {
        Task::Check => Some(check_script(alloc, file, text, hints)),
        Task::CheckRun => Some(check_run(alloc, file, text, hints)),
        Task::Convert(asked) => Some(convert_list(alloc, file, text, asked)),
        Task::Fit(asked) => fit_of_list(alloc, file, text, asked),
        _ => None,
    }
}

/// The answer to a check of a script of any version; with hints, where they are asked for.
fn check_script(alloc: Global, file: &[u8], script: &[u8], hints: bool) -> Result<Answer, Fault>
    requires short { length script.now ≤ longest_script }
    ensures made { CheckMade file.now hints script.now result }
    ensures quiet { IfOk result (λ answer. answer.ending.notes.items ≡ []) }
    ensures unwritten { IfErr result IsUnwritten }
{
    match check(alloc, file, script, hints) {
        Ok(answer) => Ok(answer),
        Err(_) => Err(Fault::NoMemory),
    }
}

/// The answer to whether a list of tasks fits, or that a word is for a list; none where it is for a script.
fn fit_of_list(
    alloc: Global,
    file: &[u8],
    text: &[u8],
    asked: &FitAsked,
) -> Option<Result<Answer, Fault>>
    requires { IsConversion asked.now.conversion }
    ensures made { FitOfList file.now text.now asked.now result }
    ensures unwritten { IfSome result (λ made. IfErr made IsUnwritten) }
    ensures quiet { IfSome result (λ made. IfOk made (λ answer. IsQuietIfDone answer.ending)) }
{
    match fit_answer(alloc, file, text, asked) {
        Ok(Some(answer)) => Some(Ok(answer)),
        Ok(None) => None,
        Err(_) => Some(Err(Fault::NoMemory)),
    }
}

/// The answer to a list of tasks, in a file of this name, that is converted.
fn convert_list(
    alloc: Global,
    file: &[u8],
    list: &[u8],
    asked: &Conversion,
) -> Result<Answer, Fault>
    requires { IsConversion asked.now }
    ensures made { ListConverted asked.now file.now list.now result }
    ensures unwritten { IfErr result IsUnwritten }
{
    match convert(alloc, file, list, asked) {
        Ok(answer) => Ok(answer),
        Err(_) => Err(Fault::NoMemory),
    }
}
