ghost use Rattle.std.specs.Prelude.{◌≡◌, ◌++◌, codes, OnOk};
ghost use Rattle.std.specs.Fmt.{decimal};
ghost use Rattle.std.specs.Option.{option_map};
ghost use Rattle.pf_run_notes.specs.Lines.{count_line, denied_line, due_text, event_text, hint_text, missed_line, more_line, ran_text, refused_line, window_text};

use crate::place::{Place, push_place};
use pf_message::form::push_hint;
use pf_notes::refusal::push_record;
use pf_notes::subject::push_subtask;
use pf_notes::words::{push_between, push_word};
use pf_scenario::event::Numbered;
use pf_tally::miss::Miss;
use pf_text::file_name::push_file;
use pf_text::numbers::push_number;
use std::alloc::AllocError;

/// Appends the line of a hint, where there is one.
fn push_hint_line(text: &mut Vec<u8>, hint: &[u8]) -> Result<(), AllocError>
    ensures { OnOk result (text.new.items ≡ text.old.items ++ hint_text hint.now) }
{
    match hint {
        [] => Ok(()),
        _ => push_hint(text, hint),
    }
}

/// Appends the line of a record whose command was refused, with the sentence that tells why, and that of its hint, where it has one.
///
/// # Errors
///
/// Where memory is refused: the text is given up.
pub fn push_refused(
    text: &mut Vec<u8>,
    file: &[u8],
    place: Place,
    sentence: &[u8],
    hint: &[u8],
) -> Result<(), AllocError>
    ensures { OnOk result (text.new.items ≡ text.old.items ++ refused_line file.now place sentence.now hint.now) }
{
    push_place(text, file, place)?;
    text.extend_from_slice(b"refused: ")?;
    text.extend_from_slice(sentence)?;
    text.extend_from_slice(b"\n")?;
    push_hint_line(text, hint)
}

/// Appends an event that was denied.
#[tactic(auto, unfolding(crate::specs::Lines::event_text))]
fn push_event(text: &mut Vec<u8>, numbered: Numbered) -> Result<(), AllocError>
    ensures { OnOk result (text.new.items ≡ text.old.items ++ event_text numbered) }
{
    push_between(text, b"denied: event ", numbered.id, b", ")?;
    push_record(text, numbered.event)?;
    text.extend_from_slice(b": ")
}

/// Appends the line of an event that was denied, with the sentence that tells why, and that of its hint, where it has one; the place
/// is that of the record that made it as it stands.
///
/// # Errors
///
/// Where memory is refused: the text is given up.
pub fn push_denied(
    text: &mut Vec<u8>,
    file: &[u8],
    place: Place,
    numbered: Numbered,
    sentence: &[u8],
    hint: &[u8],
) -> Result<(), AllocError>
    ensures { OnOk result (text.new.items ≡ text.old.items ++ denied_line file.now place numbered sentence.now hint.now) }
{
    push_place(text, file, place)?;
    push_event(text, numbered)?;
    text.extend_from_slice(sentence)?;
    text.extend_from_slice(b"\n")?;
    push_hint_line(text, hint)
}

/// Appends when a window that was missed ran.
fn push_ran(text: &mut Vec<u8>, ran: Option<u64>) -> Result<(), AllocError>
    ensures { OnOk result (text.new.items ≡ text.old.items ++ ran_text ran) }
{
    match ran {
        Some(slot) => push_between(text, b" and ran in slot ", slot, b"; "),
        None => text.extend_from_slice(b" and did not run; "),
    }
}

/// Appends before which slot a window had to run.
#[tactic(auto, unfolding(crate::specs::Lines::due_text))]
fn push_due(text: &mut Vec<u8>, slot: u64) -> Result<(), AllocError>
    ensures { OnOk result (text.new.items ≡ text.old.items ++ due_text slot) }
{
    push_word(text, b" had to run before slot ", slot)
}

/// Appends a window that was missed. The name is the task's, where it has one.
#[tactic(auto, unfolding(crate::specs::Lines::window_text))]
fn push_window(text: &mut Vec<u8>, name: Option<&[u8]>, miss: Miss) -> Result<(), AllocError>
    ensures { OnOk result (text.new.items ≡ text.old.items ++ window_text (option_map (λ n. n.now) name.entry) miss) }
{
    text.extend_from_slice(b"missed: ")?;
    push_subtask(text, name, u64::from(miss.task), u64::from(miss.sub))?;
    push_due(text, miss.deadline)
}

/// Appends the line of a task that missed windows: the first of them and how many they are. The place is that of the record that
/// made its join, and the name the task's, where it has one.
///
/// # Errors
///
/// Where memory is refused: the text is given up.
pub fn push_missed(
    text: &mut Vec<u8>,
    file: &[u8],
    place: Place,
    name: Option<&[u8]>,
    miss: Miss,
    count: u64,
) -> Result<(), AllocError>
    ensures { OnOk result (text.new.items ≡ text.old.items ++ missed_line file.now place (option_map (λ n. n.now) name.entry) miss count) }
{
    push_place(text, file, place)?;
    push_window(text, name, miss)?;
    push_ran(text, miss.ran)?;
    push_number(text, count)?;
    text.extend_from_slice(b" in all\n")
}

/// Appends how many lines more there are.
///
/// # Errors
///
/// Where memory is refused: the text is given up.
#[tactic(auto, unfolding(crate::specs::Lines::more_line))]
pub fn push_more(text: &mut Vec<u8>, count: u64) -> Result<(), AllocError>
    ensures { OnOk result (text.new.items ≡ text.old.items ++ more_line count) }
{
    text.extend_from_slice(b"and ")?;
    push_number(text, count)?;
    text.extend_from_slice(b" more\n")
}

/// Appends the last line: how many commands were refused, events denied and windows missed.
///
/// # Errors
///
/// Where memory is refused: the text is given up.
#[tactic(auto, unfolding(crate::specs::Lines::count_line))]
pub fn push_counts(
    text: &mut Vec<u8>,
    file: &[u8],
    refused: u64,
    denied: u64,
    missed: u64,
) -> Result<(), AllocError>
    ensures { OnOk result (text.new.items ≡ text.old.items ++ count_line file.now refused denied missed) }
{
    push_file(text, file)?;
    text.extend_from_slice(b": ")?;
    push_number(text, refused)?;
    text.extend_from_slice(b" refused, ")?;
    push_number(text, denied)?;
    text.extend_from_slice(b" denied, ")?;
    push_number(text, missed)?;
    text.extend_from_slice(b" missed\n")
}
