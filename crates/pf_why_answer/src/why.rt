ghost use Rattle.std.specs.Prelude.{◌≡◌, ◌<◌, string_bytes, IfOk, IfErr};
ghost use Rattle.pf_replies.specs.Course.{course_at, seen_at};
ghost use Rattle.pf_vocabulary.specs.Fault.Faults.{IsUnwritten};
ghost use Rattle.pf_why_answer.specs.Answer.{IsAnswer, IsQuietIfDone, WhyMade, answer_text, number_in, refused, seen_told, slot_told, stepped_text, unbelow_line, unnamed_line};

use pf_desk::desk::Desk;
use pf_desk::snapshot::Snapshot;
use pf_replies::at_end::seen_at_end;
use pf_vocabulary::fault::answer::Answer;
use pf_vocabulary::fault::ending::Ending;
use pf_vocabulary::fault::fault::Fault;
use pf_vocabulary::fault::status::Status;
use pf_vocabulary::names::names::Names;
use pf_vocabulary::questions::question::{Question, WhyFormat};
use pf_vocabulary::questions::task_asked::TaskAsked;
use pf_why_json::slot::why_json;
use pf_why_text::slot::why_text;
use std::alloc::{AllocError, Global};

/// The number of a task that is asked for; none where its name is that of no task.
fn number_in(names: &Names, task: &TaskAsked) -> Option<u64>
    ensures { result ≡ number_in names.now task.now }
{
    match task {
        TaskAsked::Number(number) => Some(*number),
        TaskAsked::Named(name) => names.task_of(name.as_bytes()),
    }
}

/// That a name is that of no task.
fn unnamed_line(alloc: Global, task: &TaskAsked) -> Result<String, AllocError>
    ensures { IfOk result (λ line. string_bytes line ≡ unnamed_line task.now) }
{
    match task {
        TaskAsked::Number(_) => Ok(String::new(alloc)),
        TaskAsked::Named(name) => format!(in alloc; "\"{}\" names no task\n", name.as_str()),
    }
}

/// Which slots were stepped, of so many.
fn stepped_text(alloc: Global, now: u64) -> Result<String, AllocError>
    ensures { IfOk result (λ text. string_bytes text ≡ stepped_text now) }
{
    match now {
        0 => String::from_str(alloc, "none was"),
        1 => String::from_str(alloc, "slot 0 was"),
        _ => format!(in alloc; "slots 0 to {} were", now - 1),
    }
}

/// That slot t is not one of those stepped.
fn unbelow_line(alloc: Global, t: u64, now: u64) -> Result<String, AllocError>
    ensures { IfOk result (λ line. string_bytes line ≡ unbelow_line t now) }
{
    let stepped = stepped_text(alloc, now)?;
    format!(in alloc; "slot {t} was not stepped: {}\n", stepped.as_str())
}

/// An answer that is nothing but this line on standard error.
fn refused(alloc: Global, line: String) -> Answer
    ensures told { IsAnswer (refused (string_bytes line)) result }
    ensures quiet { IsQuietIfDone result }
{
    Answer {
        text: Vec::new(alloc),
        ending: Ending {
            status: Status::BadWords,
            notes: line.into_bytes(),
        },
    }
}

/// The text of slot t in a format.
fn answer_text(
    alloc: Global,
    seen: &Snapshot,
    names: &Names,
    format: WhyFormat,
    t: u64,
    asked: Option<u64>,
) -> Result<Vec<u8>, AllocError>
    requires { t < seen.now.state.now }
    ensures { IfOk result (λ text. text.items ≡ answer_text names.now seen.now format t asked) }
{
    match format {
        WhyFormat::Text => why_text(alloc, seen, names, t, asked),
        WhyFormat::Json => why_json(alloc, seen, names, t, asked),
    }
}

/// The answer about slot t and a task that may be asked for; a slot that was not stepped is refused.
fn slot_answer(
    alloc: Global,
    seen: &Snapshot,
    names: &Names,
    format: WhyFormat,
    t: u64,
    asked: Option<u64>,
) -> Result<Answer, AllocError>
    ensures told { IfOk result (λ answer. IsAnswer (slot_told names.now seen.now format t asked) answer) }
    ensures quiet { IfOk result IsQuietIfDone }
{
    let now = seen.now();
    if t >= now {
        return Ok(refused(alloc, unbelow_line(alloc, t, now)?));
    }
    let text = answer_text(alloc, seen, names, format, t, asked)?;
    Ok(Answer::done(alloc, text))
}

/// The answer to a question about what is seen.
fn seen_answer(
    alloc: Global,
    seen: &Snapshot,
    names: &Names,
    question: &Question,
) -> Result<Answer, AllocError>
    ensures told { IfOk result (λ answer. IsAnswer (seen_told names.now seen.now question.now) answer) }
    ensures quiet { IfOk result IsQuietIfDone }
{
    let slot = question.slot;
    let format = question.format;
    match &question.task {
        None => slot_answer(alloc, seen, names, format, slot, None),
        Some(task) => match number_in(names, task) {
            Some(number) => slot_answer(alloc, seen, names, format, slot, Some(number)),
            None => Ok(refused(alloc, unnamed_line(alloc, task)?)),
        },
    }
}

/// The answer to a question about a desk whose tasks have these names: why a slot of its run went as it did. A name that is that of no
/// task and a slot that was not stepped are told, with the status `BadWords` and no text.
///
/// # Errors
///
/// Where memory is refused.
pub fn desk_answer(
    alloc: Global,
    desk: &Desk,
    names: &Names,
    question: &Question,
) -> Result<Answer, AllocError>
    ensures { IfOk result (λ answer. IsAnswer (seen_told names.now (seen_at (course_at desk.now)) question.now) answer) }
{
    let seen = desk.snapshot()?;
    seen_answer(alloc, &seen, names, question)
}

/// Carries out a script of these bytes, whose tasks have these names, and answers why a slot of its run went as it did, as the
/// scenario stands at the end. A name that is that of no task and a slot that was not stepped are told, with the status
/// `BadWords` and no text.
///
/// # Errors
///
/// `BadRecord` at the first record that is none of the script's, and `NoMemory` where memory is refused.
#[tactic(auto, using(crate::proofs::Made::answer_made))]
pub fn why(
    alloc: Global,
    script: &[u8],
    names: &Names,
    question: &Question,
) -> Result<Answer, Fault>
    ensures made { WhyMade names.now question.now script.now result }
    ensures quiet { IfOk result IsQuietIfDone }
    ensures unwritten { IfErr result IsUnwritten }
{
    match seen_at_end(alloc, script) {
        Ok(seen) => Ok(seen_answer(alloc, &seen, names, question)?),
        Err(fault) => Err(fault),
    }
}
