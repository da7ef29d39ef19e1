ghost use Rattle.std.specs.Prelude.{◌≡◌, ◌≤◌};
ghost use Rattle.pf_script.specs.Plan.Parsing.{delay_at, early_at, event_at, join_at, leave_at, limit_at, task_at};

use crate::fields::Fields;
use crate::plan::fault::{Reason, RecordFault};
use crate::plan::number_fields::{expect_length, fault_at, parse_number};
use pf_scenario::event::Event;
use pf_vocabulary::names::name::is_letter_first;
use pf_vocabulary::names::names::Names;

/// An event whose word stands at a place; `none` is why it would be none.
#[tactic(auto, unfolding(crate::specs::Plan::Parsing::event_at))]
pub(crate) fn parse_event(
    names: &Names,
    none: Reason,
    fields: &Fields,
    place: usize,
) -> Result<Event, RecordFault>
    requires { place ≤ 4 }
    ensures { result ≡ event_at names.now none fields.now place }
{
    if fields.is_word(place, b"join") {
        return parse_join(names, fields, place);
    }
    if fields.is_word(place, b"leave") {
        return parse_leave(names, fields, place);
    }
    if fields.is_word(place, b"delay") {
        return parse_delay(names, fields, place);
    }
    if fields.is_word(place, b"limit") {
        return parse_limit(fields, place);
    }
    Err(fault_at(place, none))
}

/// The event `join,SLOT,TASK,COST,PERIOD`, perhaps with `,EARLY`.
#[tactic(auto, unfolding(crate::specs::Plan::Parsing::join_at))]
fn parse_join(names: &Names, fields: &Fields, place: usize) -> Result<Event, RecordFault>
    requires { place ≤ 4 }
    ensures { result ≡ join_at names.now fields.now place }
{
    expect_length(fields, place + 5, place + 6, Reason::JoinFields(place + 5))?;
    Ok(Event::Join {
        slot: parse_number(Reason::NoNumber, fields, place + 1)?,
        task: parse_task(names, fields, place + 2)?,
        cost: parse_number(Reason::NoNumber, fields, place + 3)?,
        period: parse_number(Reason::NoNumber, fields, place + 4)?,
        early: parse_early(fields, place + 5)?,
    })
}

/// EARLY, which may be left out and is then 0.
#[tactic(auto, unfolding(crate::specs::Plan::Parsing::early_at))]
fn parse_early(fields: &Fields, place: usize) -> Result<u64, RecordFault>
    requires { place ≤ 9 }
    ensures { result ≡ early_at fields.now place }
{
    if fields.len() <= place {
        return Ok(0);
    }
    parse_number(Reason::NoNumber, fields, place)
}

/// The event `leave,SLOT,TASK`.
#[tactic(auto, unfolding(crate::specs::Plan::Parsing::leave_at))]
fn parse_leave(names: &Names, fields: &Fields, place: usize) -> Result<Event, RecordFault>
    requires { place ≤ 4 }
    ensures { result ≡ leave_at names.now fields.now place }
{
    expect_length(fields, place + 3, place + 3, Reason::Fields(place + 3))?;
    Ok(Event::Leave {
        slot: parse_number(Reason::NoNumber, fields, place + 1)?,
        task: parse_task(names, fields, place + 2)?,
    })
}

/// The event `delay,SLOT,TASK,BY`.
#[tactic(auto, unfolding(crate::specs::Plan::Parsing::delay_at))]
fn parse_delay(names: &Names, fields: &Fields, place: usize) -> Result<Event, RecordFault>
    requires { place ≤ 4 }
    ensures { result ≡ delay_at names.now fields.now place }
{
    expect_length(fields, place + 4, place + 4, Reason::Fields(place + 4))?;
    Ok(Event::Delay {
        slot: parse_number(Reason::NoNumber, fields, place + 1)?,
        task: parse_task(names, fields, place + 2)?,
        by: parse_number(Reason::NoNumber, fields, place + 3)?,
    })
}

/// The event `limit,SLOT,COUNT`.
#[tactic(auto, unfolding(crate::specs::Plan::Parsing::limit_at))]
fn parse_limit(fields: &Fields, place: usize) -> Result<Event, RecordFault>
    requires { place ≤ 4 }
    ensures { result ≡ limit_at fields.now place }
{
    expect_length(fields, place + 3, place + 3, Reason::Fields(place + 3))?;
    Ok(Event::Limit {
        slot: parse_number(Reason::NoNumber, fields, place + 1)?,
        count: parse_number(Reason::NoNumber, fields, place + 2)?,
    })
}

/// A task: a name that was given, or a number.
#[tactic(auto, unfolding(crate::specs::Plan::Parsing::task_at))]
fn parse_task(names: &Names, fields: &Fields, place: usize) -> Result<u64, RecordFault>
    requires { place ≤ 9 }
    ensures { result ≡ task_at names.now fields.now place }
{
    let field = fields.field(place);
    if !is_letter_first(field) {
        return parse_number(Reason::NoNumber, fields, place);
    }
    names.task_of(field).ok_or(fault_at(place, Reason::NoTask))
}
