ghost use Rattle.std.specs.Prelude.{◌≡◌};
ghost use Rattle.std.specs.Option.{option_map};
ghost use Rattle.pf_vocabulary.specs.Questions.Reading.{format_given, question_of, slot_given, task_given, task_of};

use crate::names::name::{Name, is_letter_first};
use crate::questions::mistake::WhyMistake;
use crate::questions::question::{Question, WhyFormat};
use crate::questions::task_asked::TaskAsked;
use pf_text::numbers::parse_number;
use pf_weight::task::LARGEST_TASK;

/// The slot of a text.
fn read_slot(text: Option<&str>) -> Result<u64, WhyMistake>
    ensures { result ≡ slot_given (option_map (λ t. t.now) text.entry) }
{
    let Some(text) = text else {
        return Err(WhyMistake::Slot);
    };
    match parse_number(text.as_bytes()) {
        Some(slot) => Ok(slot),
        None => Err(WhyMistake::Slot),
    }
}

/// The format of this name; the text where none is given.
fn read_format(name: Option<&str>) -> Result<WhyFormat, WhyMistake>
    ensures { result ≡ format_given (option_map (λ n. n.now) name.entry) }
{
    match name {
        None | Some("text") => Ok(WhyFormat::Text),
        Some("json") => Ok(WhyFormat::Json),
        Some(_) => Err(WhyMistake::Format),
    }
}

/// The task that a text tells: one that begins with a letter is a name, any other a number.
pub fn task_of(text: &[u8]) -> Option<TaskAsked>
    ensures { result ≡ task_of text.now }
{
    if is_letter_first(text) {
        return match Name::new(text) {
            Some(name) => Some(TaskAsked::Named(name)),
            None => None,
        };
    }
    match parse_number(text) {
        Some(number) if number >= 1 && number <= LARGEST_TASK => Some(TaskAsked::Number(number)),
        _ => None,
    }
}

/// The task of a text, where one is given.
fn read_task(text: Option<&str>) -> Result<Option<TaskAsked>, WhyMistake>
    ensures { result ≡ task_given (option_map (λ t. t.now) text.entry) }
{
    let Some(text) = text else {
        return Ok(None);
    };
    match task_of(text.as_bytes()) {
        Some(task) => Ok(Some(task)),
        None => Err(WhyMistake::Task),
    }
}

/// What words ask of a slot: the slot of a text, in the format of a name, the text where none is given, and the task of a text, where
/// one is given.
///
/// # Errors
///
/// The first of the slot, which has to be given, the format and the task that is mistaken.
pub fn read_question(
    slot: Option<&str>,
    format: Option<&str>,
    task: Option<&str>,
) -> Result<Question, WhyMistake>
    ensures { result ≡ question_of (option_map (λ t. t.now) slot.entry) (option_map (λ n. n.now) format.entry) (option_map (λ t. t.now) task.entry) }
{
    let slot = read_slot(slot)?;
    let format = read_format(format)?;
    let task = read_task(task)?;
    Ok(Question { slot, task, format })
}
