ghost use Rattle.std.specs.Prelude.{◌≡◌, ◌++◌, take, IfOk, OnOk};
ghost use Rattle.std.specs.List.{flat_map};
ghost use Rattle.std.specs.Option.{option_map, option_and_then};
ghost use Rattle.pf_vocabulary.specs.Names.Names.{name_of};
ghost use Rattle.pf_scenario.specs.Event.{is_join_of};
ghost use Rattle.pf_run.specs.Computed.{run_of};
ghost use Rattle.pf_notes.specs.Absence.{join_among};
ghost use Rattle.pf_notes.specs.Grounds.{task_of_grounds};
ghost use Rattle.pf_notes.specs.Hints.{grounds_hint};
ghost use Rattle.pf_notes.specs.Point.{event_of};
ghost use Rattle.pf_run_notes.specs.Lines.{denied_line, hint_if};
ghost use Rattle.pf_run_notes.specs.Notes.{counts_text, denied_note, late_lines, missed_with, more_text, sentence_of};

use crate::lines::{push_counts, push_denied, push_missed, push_more};
use crate::made::Made;
use crate::place::Place;
use pf_collections::table::table::Table;
use pf_notes::grounds::{Grounds, push_grounds};
use pf_notes::hint::push_grounds_hint;
use pf_notes::reasons::Reasons;
use pf_run::denied::Denied;
use pf_scenario::event::{Event, Numbered};
use pf_scenario::scenario::Scenario;
use pf_tally::miss::Miss;
use pf_vocabulary::names::names::Names;
use std::alloc::{AllocError, Global};

/// The name of the task, where it has one.
pub fn name_of(names: &Names, task: u64) -> Option<&[u8]>
    ensures { option_map (λ n. n.now) result ≡ name_of names.now task }
{
    match names.of_task(task) {
        Some(name) => Some(name.as_bytes()),
        None => None,
    }
}

/// The name of the task that the grounds speak of, where it has one.
fn name_in<'a>(names: &'a Names, grounds: &Grounds) -> Option<&'a [u8]>
    ensures { option_map (λ n. n.now) result ≡ option_and_then (name_of names.now) (task_of_grounds grounds.now) }
{
    match grounds.task() {
        Some(task) => name_of(names, task),
        None => None,
    }
}

/// The event of this number, where it is held.
pub fn event_of(scenario: &Scenario, id: u64) -> Option<Numbered>
    ensures { result ≡ event_of id scenario.now.events }
{
    for numbered in scenario.events() {
        if numbered.id == id {
            return Some(numbered);
        }
    }
    None
}

/// Whether the event joins the task.
fn is_join_of(task: u64, event: &Event) -> bool
    ensures { result ≡ is_join_of task event.now }
{
    match *event {
        Event::Join { task: number, .. } => number == task,
        _ => false,
    }
}

/// The join of the task, where one is held.
pub fn join_of(scenario: &Scenario, task: u64) -> Option<Numbered>
    ensures { result ≡ join_among task scenario.now.events }
{
    for numbered in scenario.events() {
        if is_join_of(task, &numbered.event) {
            return Some(numbered);
        }
    }
    None
}

/// What would be right in place of an event whose denial rests on these grounds, where hints are asked for.
fn grounds_hint(alloc: Global, hints: bool, grounds: &Grounds) -> Result<Vec<u8>, AllocError>
    ensures { IfOk result (λ hint. hint.items ≡ hint_if hints (grounds_hint grounds.now)) }
{
    let mut hint = Vec::new(alloc);
    if hints {
        push_grounds_hint(&mut hint, grounds)?;
    }
    Ok(hint)
}

/// Appends the line of a denial, of this event, made by this record, on these grounds, and that of its hint.
fn push_denial(
    alloc: Global,
    text: &mut Vec<u8>,
    file: &[u8],
    hints: bool,
    names: &Names,
    numbered: Numbered,
    place: Place,
    grounds: Grounds,
) -> Result<(), AllocError>
    ensures { OnOk result (text.new.items ≡ text.old.items ++ denied_line file.now place numbered (sentence_of names.now grounds)
        (hint_if hints (grounds_hint grounds))) }
{
    let hint = grounds_hint(alloc, hints, &grounds)?;
    let mut sentence = Vec::new(alloc);
    push_grounds(&mut sentence, name_in(names, &grounds), &grounds)?;
    push_denied(text, file, place, numbered, &sentence, &hint)
}

/// Appends the line of a task that missed so many windows, this one first.
fn push_late(
    text: &mut Vec<u8>,
    file: &[u8],
    names: &Names,
    made: &Made,
    miss: Miss,
    count: u64,
    join: Option<Numbered>,
) -> Result<(), AllocError>
    ensures { OnOk result (text.new.items ≡ text.old.items ++ missed_with file.now names.now made.now miss count join) }
{
    let Some(numbered) = join else {
        return Ok(());
    };
    match made.maker(numbered.id) {
        Some(place) => {
            let name = name_of(names, u64::from(miss.task));
            push_missed(text, file, place, name, miss, count)
        }
        None => Ok(()),
    }
}

/// Appends how many lines more there are than `most`.
pub(crate) fn push_rest(text: &mut Vec<u8>, most: u64, lines: u64) -> Result<(), AllocError>
    ensures { OnOk result (text.new.items ≡ text.old.items ++ more_text most lines) }
{
    if most < lines {
        push_more(text, lines - most)
    } else {
        Ok(())
    }
}

/// Appends the last line, where there is another.
pub(crate) fn push_last(
    text: &mut Vec<u8>,
    file: &[u8],
    lines: u64,
    refused: u64,
    denied: u64,
    missed: u64,
) -> Result<(), AllocError>
    ensures { OnOk result (text.new.items ≡ text.old.items ++ counts_text file.now lines refused denied missed) }
{
    if lines == 0 {
        Ok(())
    } else {
        push_counts(text, file, refused, denied, missed)
    }
}

/// The first of some elements, as many as are there of `most`.
pub(crate) fn front<T>(xs: &[T], most: u64) -> &[T]
    ensures { result.now ≡ take most xs.now }
{
    if most < xs.len() as u64 {
        &xs[..most as usize]
    } else {
        xs
    }
}

/// Appends the line of a denial of the run that the reasons are of.
fn push_denied_note(
    alloc: Global,
    text: &mut Vec<u8>,
    file: &[u8],
    hints: bool,
    names: &Names,
    made: &Made,
    scenario: &Scenario,
    reasons: &Reasons<'_>,
    denied: Denied,
) -> Result<(), AllocError>
    requires { scenario.now ≡ reasons.now.state.plan }
    ensures { OnOk result (text.new.items ≡ text.old.items
        ++ denied_note file.now hints names.now made.now scenario.now (run_of scenario.now reasons.now.state.now) denied) }
{
    let grounds = reasons.grounds(alloc, denied)?;
    let numbered = event_of(scenario, denied.id);
    let place = made.maker(denied.id);
    match (numbered, place, grounds) {
        (Some(numbered), Some(place), Some(grounds)) => {
            push_denial(alloc, text, file, hints, names, numbered, place, grounds)
        }
        _ => Ok(()),
    }
}

/// Appends the lines of these denials of the run that the reasons are of.
pub(crate) fn push_denials(
    alloc: Global,
    text: &mut Vec<u8>,
    file: &[u8],
    hints: bool,
    names: &Names,
    made: &Made,
    scenario: &Scenario,
    reasons: &Reasons<'_>,
    denials: &[Denied],
) -> Result<(), AllocError>
    requires { scenario.now ≡ reasons.now.state.plan }
    ensures { OnOk result (text.new.items ≡ text.old.items
        ++ flat_map (denied_note file.now hints names.now made.now scenario.now (run_of scenario.now reasons.now.state.now)) denials.now) }
{
    for denied in denials {
        push_denied_note(
            alloc, text, file, hints, names, made, scenario, reasons, *denied,
        )?;
    }
    Ok(())
}

/// Appends the lines of these tasks that missed windows.
pub(crate) fn push_late_tasks(
    text: &mut Vec<u8>,
    file: &[u8],
    names: &Names,
    made: &Made,
    scenario: &Scenario,
    counts: &Table<u64>,
    firsts: &[Miss],
) -> Result<(), AllocError>
    ensures { OnOk result (text.new.items ≡ text.old.items
        ++ late_lines file.now names.now made.now scenario.now.events counts.now firsts.now) }
{
    for miss in firsts {
        let join = join_of(scenario, u64::from(miss.task));
        push_late(text, file, names, made, *miss, counts.get(miss.task), join)?;
    }
    Ok(())
}
