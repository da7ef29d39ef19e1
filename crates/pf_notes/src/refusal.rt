ghost use Rattle.std.specs.Prelude.{◌≡◌, ◌==◌, ◌||◌, ◌++◌, [], codes, find, OnOk};
ghost use Rattle.std.specs.Fmt.{decimal};
ghost use Rattle.std.specs.Option.{option_map, option_map_or, unwrap_or};
ghost use Rattle.pf_scenario.specs.Event.{task_of};
ghost use Rattle.pf_scenario.specs.Edit.{join_alike, leave_alike};
ghost use Rattle.pf_scenario.specs.Scenario.{number_of_change};
ghost use Rattle.pf_notes.specs.Refusal.{record_text, number_beside, brought_by, is_other, other_of, other_text, number_text, missing_text, weight_text, event_text, change_text, left_event, denied_text, would_deny_text, refusal_text, horizon_text, named_by};

use crate::subject::push_task;
use crate::words::{push_between, push_two, push_word};
use pf_admit::denial::Denial;
use pf_desk::reply::Fault;
use pf_scenario::change::Change;
use pf_scenario::event::{Event, Numbered};
use pf_scenario::fault::EditFault;
use pf_scenario::scenario::Scenario;
use pf_scenario::settings::Settings;
use pf_text::numbers::push_number;
use pf_weight::fault::WeightFault;
use std::alloc::AllocError;

/// Appends an event as the record that inserts it.
///
/// # Errors
///
/// Where memory is refused: the text is given up.
pub fn push_record(text: &mut Vec<u8>, event: Event) -> Result<(), AllocError>
    ensures { OnOk result (text.new.items ≡ text.old.items ++ record_text event) }
{
    match event {
        Event::Join {
            slot,
            task,
            cost,
            period,
            early,
        } => {
            push_word(text, b"join,", slot)?;
            push_word(text, b",", task)?;
            push_word(text, b",", cost)?;
            push_word(text, b",", period)?;
            push_word(text, b",", early)
        }
        Event::Leave { slot, task } => {
            push_word(text, b"leave,", slot)?;
            push_word(text, b",", task)
        }
        Event::Delay { slot, task, by } => {
            push_word(text, b"delay,", slot)?;
            push_word(text, b",", task)?;
            push_word(text, b",", by)
        }
        Event::Limit { slot, count } => {
            push_word(text, b"limit,", slot)?;
            push_word(text, b",", count)
        }
    }
}

/// Appends the sentence of a number that no event has: it was given, or it was not.
fn push_missing(text: &mut Vec<u8>, next: u64, id: u64) -> Result<(), AllocError>
    ensures { OnOk result (text.new.items ≡ text.old.items ++ missing_text next id) }
{
    if 1 <= id && id < next {
        push_between(text, b"event ", id, b" was struck out")
    } else {
        push_two(
            text,
            b"no event has the number ",
            id,
            b", the next one is ",
            next,
        )
    }
}

/// Appends what is wrong with a cost and a period.
fn push_weight(
    text: &mut Vec<u8>,
    base: u64,
    cost: u64,
    period: u64,
    fault: WeightFault,
) -> Result<(), AllocError>
    ensures { OnOk result (text.new.items ≡ text.old.items ++ weight_text base cost period fault) }
{
    match fault {
        WeightFault::ZeroCost => text.extend_from_slice(b"the cost is 0"),
        WeightFault::CostAbovePeriod => {
            push_word(text, b"the cost ", cost)?;
            push_word(text, b" is above the period ", period)
        }
        WeightFault::PeriodNotInBase => {
            push_word(text, b"the period ", period)?;
            push_word(text, b" does not divide the base ", base)
        }
    }
}

/// The event of this number, if the change brings one for it, or else 0, which no event has.
fn beside(change: Change) -> u64
    ensures { result ≡ number_beside change }
{
    match change {
        Change::Insert(_) => 0,
        Change::Alter(id, _) | Change::Strike(id) => id,
    }
}

/// The event that the change brings.
pub(crate) fn brought_by(change: Change) -> Option<Event>
    ensures { result ≡ brought_by change }
{
    match change {
        Change::Insert(event) | Change::Alter(_, event) => Some(event),
        Change::Strike(_) => None,
    }
}

/// Whether both events join one task, or both leave one.
fn are_alike(x: &Event, y: &Event) -> bool
    ensures { result ≡ (join_alike x.now y.now || leave_alike x.now y.now) }
{
    match (*x, *y) {
        (Event::Join { task, .. }, Event::Join { task: other, .. }) => task == other,
        (Event::Leave { task, .. }, Event::Leave { task: other, .. }) => task == other,
        _ => false,
    }
}

/// Whether the event has another number than `id`, and joins the task which the event joins, or leaves the one which it leaves.
fn is_other(id: u64, event: &Event, numbered: &Numbered) -> bool
    ensures { result ≡ is_other id event.now numbered.now }
{
    numbered.id != id && are_alike(&numbered.event, event)
}

/// The other event held that joins the task which the change joins, or leaves the one which it leaves.
pub(crate) fn other_of(scenario: &Scenario, change: Change, event: Event) -> Option<u64>
    ensures { result ≡ other_of scenario.now change event }
{
    match first_other(scenario, beside(change), event) {
        Some(numbered) => Some(numbered.id),
        None => None,
    }
}

/// The same, of events of another number than `id`, in whole.
fn first_other(scenario: &Scenario, id: u64, event: Event) -> Option<Numbered>
    ensures { result ≡ find (is_other id event) scenario.now.events }
{
    for numbered in scenario.events() {
        if is_other(id, &event, &numbered) {
            return Some(numbered);
        }
    }
    None
}

/// Appends what the number of an event of this word is not within.
fn push_range(text: &mut Vec<u8>, word: &[u8], number: u64, most: u64) -> Result<(), AllocError>
    ensures { OnOk result (text.new.items ≡ text.old.items ++ (word.now ++ decimal number ++ codes " is not within 1 to " ++ decimal most)) }
{
    push_word(text, word, number)?;
    push_word(text, b" is not within 1 to ", most)
}

/// Appends which other event joins the task, or leaves it.
fn push_other(
    text: &mut Vec<u8>,
    name: Option<&[u8]>,
    word: &[u8],
    task: u64,
    other: Option<u64>,
) -> Result<(), AllocError>
    ensures { OnOk result (text.new.items ≡ text.old.items ++ option_map_or (other_text (option_map (λ n. n.now) name.entry) word.now task) other []) }
{
    match other {
        Some(id) => {
            push_word(text, b"event ", id)?;
            text.extend_from_slice(word)?;
            push_task(text, name, task)
        }
        None => Ok(()),
    }
}

/// Appends what is wrong with the numbers of an event by which none joins or leaves twice.
fn push_bad_number(
    text: &mut Vec<u8>,
    settings: Settings,
    event: Event,
    fault: EditFault,
) -> Result<(), AllocError>
    ensures { OnOk result (text.new.items ≡ text.old.items ++ number_text settings event fault) }
{
    match event {
        Event::Join {
            cost,
            period,
            early,
            ..
        } => match fault {
            EditFault::EarlyOutOfRange => push_between(
                text,
                b"early ",
                early,
                b" is above 1048576",
            ),
            EditFault::BadWeight(fault) => {
                push_weight(text, u64::from(settings.base().get()), cost, period, fault)
            }
            _ => Ok(()),
        },
        Event::Delay { by, .. } => push_range(text, b"by ", by, 1_048_576),
        Event::Limit { count, .. } => {
            push_range(text, b"count ", count, u64::from(settings.processors()))
        }
        Event::Leave { .. } => Ok(()),
    }
}

/// Appends the sentence of an event that fails a test; `other` is the number of the event that joins or leaves its task, too.
fn push_event(
    text: &mut Vec<u8>,
    name: Option<&[u8]>,
    settings: Settings,
    other: Option<u64>,
    event: Event,
    fault: EditFault,
) -> Result<(), AllocError>
    ensures { OnOk result (text.new.items ≡ text.old.items ++ event_text (option_map (λ n. n.now) name.entry) settings other event fault) }
{
    match fault {
        EditFault::SlotOutOfRange => push_two(
            text,
            b"slot ",
            event.slot(),
            b" is not below the horizon ",
            settings.horizon(),
        ),
        EditFault::TaskOutOfRange => push_range(text, b"task ", task_or_none(event), 4095),
        EditFault::JoinTwice => push_other(text, name, b" joins ", task_or_none(event), other),
        EditFault::LeaveTwice => {
            push_other(text, name, b" is the leave of ", task_or_none(event), other)
        }
        _ => push_bad_number(text, settings, event, fault),
    }
}

/// The task of the event, or 0, which no task has.
fn task_or_none(event: Event) -> u64
    ensures { result ≡ unwrap_or (task_of event) 0 }
{
    match event.task() {
        Some(task) => task,
        None => 0,
    }
}

/// Appends the sentence of a change with a fault.
fn push_change(
    text: &mut Vec<u8>,
    name: Option<&[u8]>,
    scenario: &Scenario,
    change: Change,
    fault: EditFault,
) -> Result<(), AllocError>
    ensures { OnOk result (text.new.items ≡ text.old.items ++ change_text (option_map (λ n. n.now) name.entry) scenario.now change fault) }
{
    match fault {
        EditFault::EventNotFound => {
            push_missing(text, scenario.next_number(), concerned(scenario, change))
        },
        EditFault::TooManyEvents => text.extend_from_slice(b"65535 events are held"),
        EditFault::NumbersSpent => text.extend_from_slice(b"number 1048575 was given"),
        _ => match brought_by(change) {
            Some(event) => {
                let other = other_of(scenario, change, event);
                push_event(text, name, scenario.settings(), other, event, fault)
            }
            None => Ok(()),
        },
    }
}

/// The number of the event that a change concerns.
fn concerned(scenario: &Scenario, change: Change) -> u64
    ensures { result ≡ number_of_change scenario.now change }
{
    match change {
        Change::Insert(_) => scenario.next_number(),
        Change::Alter(id, _) | Change::Strike(id) => id,
    }
}

/// The event of this number among those held.
fn held_event(scenario: &Scenario, id: u64) -> Option<Event>
    ensures { result ≡ option_map (λ x. x.event) (find (λ x. x.id == id) scenario.now.events) }
{
    match held_numbered(scenario, id) {
        Some(numbered) => Some(numbered.event),
        None => None,
    }
}

/// The same with its number.
fn held_numbered(scenario: &Scenario, id: u64) -> Option<Numbered>
    ensures { result ≡ find (λ x. x.id == id) scenario.now.events }
{
    for numbered in scenario.events() {
        if numbered.id == id {
            return Some(numbered);
        }
    }
    None
}

/// The event of this number as the change leaves it.
fn left_event(scenario: &Scenario, change: Change, id: u64) -> Option<Event>
    ensures { result ≡ left_event scenario.now change id }
{
    if id == concerned(scenario, change) {
        brought_by(change)
    } else {
        held_event(scenario, id)
    }
}

/// Appends which event a strict change would leave denied.
fn push_would_deny(
    text: &mut Vec<u8>,
    scenario: &Scenario,
    change: Change,
    id: u64,
    denial: Denial,
) -> Result<(), AllocError>
    ensures { OnOk result (text.new.items ≡ text.old.items ++ would_deny_text scenario.now change id denial) }
{
    push_between(text, b"event ", id, b", ")?;
    push_left(text, left_event(scenario, change, id))?;
    text.extend_from_slice(b", would be denied: ")?;
    text.extend_from_slice(denial_words(denial).as_bytes())
}

/// Appends the record of an event, where there is one.
fn push_left(text: &mut Vec<u8>, event: Option<Event>) -> Result<(), AllocError>
    ensures { OnOk result (text.new.items ≡ text.old.items ++ option_map_or record_text event []) }
{
    match event {
        Some(event) => push_record(text, event),
        None => Ok(()),
    }
}

/// Why an event would be denied.
fn denial_words(denial: Denial) -> &'static str
    ensures { result.now ≡ denied_text denial }
{
    match denial {
        Denial::OverCapacity => "it asks for more than is free",
        Denial::NotInside => "its task is not inside",
        Denial::TooEarly => "it leaves too early",
        Denial::Released => "its quantum was released already",
    }
}

/// Appends the sentence that tells why the change was refused. The scenario is the one that refused it, and the name that of the
/// change's task, where it has one. Nothing is appended of a step at the horizon, which is no change.
///
/// # Errors
///
/// Where memory is refused: the text is given up.
pub fn push_refusal(
    text: &mut Vec<u8>,
    name: Option<&[u8]>,
    scenario: &Scenario,
    change: Change,
    fault: Fault,
) -> Result<(), AllocError>
    ensures { OnOk result (text.new.items ≡ text.old.items ++ refusal_text (option_map (λ n. n.now) name.entry) scenario.now change fault) }
{
    match fault {
        Fault::BadEdit(fault) => push_change(text, name, scenario, change, fault),
        Fault::WouldDeny { id, denial } => push_would_deny(text, scenario, change, id, denial),
        Fault::AtHorizon => Ok(()),
    }
}

/// Appends how many steps of a record were refused at the horizon.
///
/// # Errors
///
/// Where memory is refused: the text is given up.
pub fn push_horizon(
    text: &mut Vec<u8>,
    horizon: u64,
    refused: u64,
    steps: u64,
) -> Result<(), AllocError>
    ensures { OnOk result (text.new.items ≡ text.old.items ++ horizon_text horizon refused steps) }
{
    push_number(text, horizon)?;
    push_two(text, b" slots are the horizon, ", refused, b" of ", steps)?;
    text.extend_from_slice(b" steps were refused")
}

/// The event that a refusal names: the other join, the other leave, or the one that a strict change would leave denied.
pub fn named_by(scenario: &Scenario, change: Change, fault: Fault) -> Option<u64>
    ensures { result ≡ named_by scenario.now change fault }
{
    match fault {
        Fault::WouldDeny { id, .. } => Some(id),
        Fault::BadEdit(EditFault::JoinTwice) | Fault::BadEdit(EditFault::LeaveTwice) => {
            other_of(scenario, change, brought_by(change)?)
        }
        _ => None,
    }
}
