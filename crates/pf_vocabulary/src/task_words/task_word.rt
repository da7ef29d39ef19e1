ghost use Rattle.std.specs.List.{position};
ghost use Rattle.std.specs.Prelude.{◌≡◌, ◌==◌, ◌<◌, length, IfSome};
ghost use Rattle.pf_vocabulary.specs.TaskWords.Reading.{range_between, range_in, task_in, word_in};

use crate::names::name::{Name, is_letter_first};
use crate::tasks::task_range::TaskRange;
use pf_text::numbers::parse_number;
use pf_weight::task::LARGEST_TASK;

/// An item of a list of tasks.
#[derive(Drop)]
pub enum TaskWord {
    /// The tasks of these numbers.
    Numbers(TaskRange),
    /// The task that has this name.
    Named(Name),
}

/// The item that a text is: one that begins with a letter is a name, any other a number or two of them joined by `-`, the first
/// not above the second.
pub fn word_in(text: &[u8]) -> Option<TaskWord>
    ensures { result ≡ word_in text.now }
{
    if is_letter_first(text) {
        return match Name::new(text) {
            Some(name) => Some(TaskWord::Named(name)),
            None => None,
        };
    }
    match range_in(text) {
        Some(range) => Some(TaskWord::Numbers(range)),
        None => None,
    }
}

/// The range that a text is, of one number or of two.
fn range_in(text: &[u8]) -> Option<TaskRange>
    ensures { result ≡ range_in text.now }
{
    match find_dash(text) {
        Some(dash) => range_between(task_in(&text[..dash]), task_in(&text[dash + 1..])),
        None => range_between(task_in(text), task_in(text)),
    }
}

/// Where the first `-` of a text stands.
fn find_dash(text: &[u8]) -> Option<usize>
    ensures value { result ≡ position (λ byte. byte == 45) text.now }
    ensures within { IfSome result (λ place. place < length text.now) }
{
    text.iter().position(|byte| *byte == b'-')
}

/// The tasks from one to another; none where there is none, or the first is above the last.
fn range_between(first: Option<u64>, last: Option<u64>) -> Option<TaskRange>
    ensures { result ≡ range_between first last }
{
    match (first, last) {
        (Some(first), Some(last)) if first <= last => Some(TaskRange { first, last }),
        _ => None,
    }
}

/// The number of a task that a text is.
fn task_in(text: &[u8]) -> Option<u64>
    ensures { result ≡ task_in text.now }
{
    match parse_number(text) {
        Some(number) if number >= 1 && number <= LARGEST_TASK => Some(number),
        _ => None,
    }
}
