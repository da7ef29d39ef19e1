ghost use Rattle.std.specs.Prelude.{◌≡◌, ◌==◌, ◌&&◌, not, filter, find, position, IfOk};
ghost use Rattle.std.specs.List.{list_any};
ghost use Rattle.std.specs.List.Sorted.{IsNonDecreasing};
ghost use Rattle.pf_scenario.specs.Scenario.{is_held};
ghost use Rattle.pf_scenario.specs.Event.{is_leave_of};
ghost use Rattle.pf_notes.specs.Absence.{join_among};
ghost use Rattle.pf_notes.specs.Point.{event_of, before_event};

use crate::inside::is_join_of;
use pf_scenario::event::{Event, Numbered};
use pf_scenario::scenario::Scenario;
use pf_tally::standing::is_among;
use std::alloc::{AllocError, Global};

/// Those of the events whose numbers are not among these, which rise.
pub(crate) fn in_force(
    alloc: Global,
    events: &[Numbered],
    denied: &[u64],
) -> Result<Vec<Numbered>, AllocError>
    requires { IsNonDecreasing denied.now }
    ensures { IfOk result (λ v. v.items ≡ filter (λ x. not (list_any (λ n. n == x.id) denied.now)) events.now) }
{
    let mut standing = Vec::new(alloc);
    for numbered in events {
        if !is_among(denied, numbered.id) {
            standing.push(*numbered)?;
        }
    }
    Ok(standing)
}

/// The event of this number among these.
pub(crate) fn event_of(events: &[Numbered], id: u64) -> Option<Numbered>
    ensures { result ≡ event_of id events.now }
{
    events.iter().copied().find(|numbered| numbered.id == id)
}

/// Whether an event of this number is among these.
pub(crate) fn is_held(events: &[Numbered], id: u64) -> bool
    ensures { result ≡ is_held events.now id }
{
    events.iter().any(|numbered| numbered.id == id)
}

/// Where the event of this number stands among these.
fn place_of(events: &[Numbered], id: u64) -> Option<usize>
    ensures { result ≡ position (λ x. x.id == id) events.now }
{
    events.iter().position(|numbered| numbered.id == id)
}

/// The events up to the one of this number, which is not among them.
pub(crate) fn before_event(events: &[Numbered], id: u64) -> &[Numbered]
    ensures { result.now ≡ before_event id events.now }
{
    match place_of(events, id) {
        Some(place) => &events[..place],
        None => events,
    }
}

/// The first event held that joins the task.
pub(crate) fn join_among(scenario: &Scenario, task: u64) -> Option<Numbered>
    ensures { result ≡ join_among task scenario.now.events }
{
    for numbered in scenario.events() {
        if is_join_of(task, &numbered.event) {
            return Some(numbered);
        }
    }
    None
}

/// Whether the event is a leave of the task.
fn is_leave_of(task: u64, event: &Event) -> bool
    ensures { result ≡ is_leave_of task event.now }
{
    match *event {
        Event::Leave { task: number, .. } => number == task,
        _ => false,
    }
}

/// The first of the events that is a leave of the task and whose number is not among these, which rise.
pub(crate) fn leave_taken(events: &[Numbered], denied: &[u64], task: u64) -> Option<Numbered>
    requires { IsNonDecreasing denied.now }
    ensures { result ≡ find (λ x. not (list_any (λ n. n == x.id) denied.now) && is_leave_of task x.event) events.now }
{
    for numbered in events {
        if !is_among(denied, numbered.id) && is_leave_of(task, &numbered.event) {
            return Some(*numbered);
        }
    }
    None
}
