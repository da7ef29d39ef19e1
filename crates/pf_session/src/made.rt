ghost use Rattle.std.specs.Prelude.{◌≡◌, ◌==◌, ◌++◌, ◌+◌, ◌-◌, ◌≤◌, find, length, map, option_map, take, OnOk};
ghost use Rattle.std.specs.Option.{option_and_then, option_to_list};
ghost use Rattle.std.specs.Vec.{vec_capacity, vec_len};
ghost use Rattle.pf_session.specs.Made.{back_line, change_line, event_before, event_held, left_behind, made_of, new_number, number_made, renumbered, taking_back};

use pf_desk::reply::Reply;
use pf_notes::refusal::push_record;
use pf_notes::words::push_between;
use pf_scenario::change::Change;
use pf_scenario::event::{Event, Numbered};
use pf_scenario::scenario::Scenario;
use pf_vocabulary::names::name::Name;
use std::alloc::AllocError;

/// A change that was made, as it is taken back.
#[derive(Clone, Copy)]
pub enum Made {
    /// The event of this number was inserted.
    Inserted(u64),
    /// The event of this number was this one, and was altered.
    Altered(u64, Event),
    /// The event of this number was this one, and was struck.
    Struck(u64, Event),
}

impl Made {
    ghost use Rattle.std.specs.Prelude.{◌≡◌};
    ghost use Rattle.pf_session.specs.Made.{made_of, renumbered, taking_back};

    /// What a change did that made the event of this number, which was this one before.
    pub(crate) fn of(change: Change, before: Option<Event>, number: u64) -> Option<Self>
        ensures { result ≡ made_of change before number }
    {
        match change {
            Change::Insert(_) => Some(Made::Inserted(number)),
            Change::Alter(id, _) => Some(Made::Altered(id, before?)),
            Change::Strike(id) => Some(Made::Struck(id, before?)),
        }
    }

    /// The change that takes it back.
    pub(crate) fn taking_back(self) -> Change
        ensures { result ≡ taking_back self }
    {
        match self {
            Made::Inserted(id) => Change::Strike(id),
            Made::Altered(id, was) => Change::Alter(id, was),
            Made::Struck(_, was) => Change::Insert(was),
        }
    }

    /// The same where its event goes by a new number, if it had the old one.
    fn renumbered(self, old: u64, new: u64) -> Self
        ensures { result ≡ renumbered old new self }
    {
        match self {
            Made::Inserted(id) => Made::Inserted(new_number(old, new, id)),
            Made::Altered(id, was) => Made::Altered(new_number(old, new, id), was),
            Made::Struck(id, was) => Made::Struck(new_number(old, new, id), was),
        }
    }
}

fn new_number(old: u64, new: u64, id: u64) -> u64
    ensures { result ≡ new_number old new id }
{
    if id == old { new } else { id }
}

/// Adds a change, which made the event of this number, if it was made. There must be room for one.
pub(crate) fn push_made(
    made: &mut Vec<Made>,
    change: Change,
    before: Option<Event>,
    number: Option<u64>,
)
    requires { vec_len made.old + 1 ≤ vec_capacity made.old }
    ensures { made.new.items ≡ made.old.items ++ option_to_list (option_and_then (made_of change before) number) }
{
    let Some(number) = number else {
        return;
    };
    let Some(one) = Made::of(change, before, number) else {
        return;
    };
    if made.push(one).is_err() {
        unreachable!();
    }
}

/// Takes the newest one out, which was taken back by a change of the event of this number.
pub(crate) fn take_back(made: &mut Vec<Made>, newest: Made, number: u64)
    ensures { made.new.items ≡ left_behind newest number (take (length made.old.items - 1) made.old.items) }
{
    let _ = made.pop();
    leave_behind(made, newest, number);
}

/// Adds what takes a change back again that was taken back, by a change of the event of this number, which was this one before. There
/// must be room for one.
pub(crate) fn reverse(others: &mut Vec<Made>, newest: Made, before: Option<Event>, number: u64)
    requires { vec_len others.old + 1 ≤ vec_capacity others.old }
    ensures { others.new.items ≡ left_behind newest number others.old.items ++ option_to_list (made_of (taking_back newest) before number) }
{
    leave_behind(others, newest, number);
    push_made(others, newest.taking_back(), before, Some(number));
}

/// Gives the event of a struck change its new number in those that are left.
fn leave_behind(made: &mut [Made], newest: Made, number: u64)
    ensures { made.new ≡ left_behind newest number made.old }
{
    if let Made::Struck(id, _) = newest {
        renumber(made, id, number);
    }
}

/// Gives an event its new number in each of these.
fn renumber(made: &mut [Made], old: u64, new: u64)
    ensures { made.new ≡ map (renumbered old new) made.old }
{
    for one in made.iter_mut() {
        *one = one.renumbered(old, new);
    }
}

/// The event of this number, with its number.
fn numbered_held(scenario: &Scenario, id: u64) -> Option<Numbered>
    ensures { result ≡ find (λ x. x.id == id) scenario.now.events }
{
    for numbered in scenario.events() {
        if numbered.id == id {
            return Some(numbered);
        }
    }
    None
}

/// The event of this number.
fn event_held(scenario: &Scenario, id: u64) -> Option<Event>
    ensures { result ≡ event_held scenario.now id }
{
    match numbered_held(scenario, id) {
        Some(numbered) => Some(numbered.event),
        None => None,
    }
}

/// The event that a change strikes, or puts another one in the place of.
pub(crate) fn event_before(scenario: &Scenario, change: Change) -> Option<Event>
    ensures { result ≡ event_before scenario.now change }
{
    match change {
        Change::Insert(_) => None,
        Change::Alter(id, _) | Change::Strike(id) => event_held(scenario, id),
    }
}

/// The number of the event of a change that was made.
pub(crate) fn number_made(reply: &Reply) -> Option<u64>
    ensures { result ≡ number_made reply.now }
{
    match reply {
        Reply::Edited { id } => Some(*id),
        Reply::Stepped { .. } | Reply::Refused(_) => None,
    }
}

/// Appends the record of a change that takes one back, whose event goes by this label, a line.
#[tactic(auto, unfolding(crate::specs::Made::back_line))]
pub(crate) fn push_back(
    text: &mut Vec<u8>,
    label: Option<&Name>,
    change: Change,
) -> Result<(), AllocError>
    ensures { OnOk result (text.new.items ≡ text.old.items ++ back_line (option_map (λ l. l.now) label.entry) change) }
{
    if let Some(label) = label {
        text.extend_from_slice(b"label,")?;
        text.extend_from_slice(label.as_bytes())?;
        text.extend_from_slice(b",again,")?;
    }
    push_change(text, change)
}

/// Appends the record of a change, a line.
fn push_change(text: &mut Vec<u8>, change: Change) -> Result<(), AllocError>
    ensures { OnOk result (text.new.items ≡ text.old.items ++ change_line change) }
{
    match change {
        Change::Insert(event) => {
            push_record(text, event)?;
            text.extend_from_slice(b"\n")
        }
        Change::Alter(id, event) => {
            push_between(text, b"alter,", id, b",")?;
            push_record(text, event)?;
            text.extend_from_slice(b"\n")
        }
        Change::Strike(id) => push_between(text, b"strike,", id, b"\n"),
    }
}
