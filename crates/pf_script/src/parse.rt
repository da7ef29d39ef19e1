ghost use Rattle.std.specs.Prelude.{◌≡◌, ◌≤◌, IfOk};
ghost use Rattle.pf_scenario.specs.System.{IsInLimits};
ghost use Rattle.pf_script.specs.Grammar.{horizon_of};
ghost use Rattle.pf_script.specs.Parsing.{fault_at, of_length, number_at, number_within, join_at, leave_at, delay_at, limit_at, event_at, strike_at, alter_at, change_at, edit_at, steps_at, line_at, heading_at, settings_at, names_line, opening_at, record_at};

use crate::fault::{Reason, RecordFault};
use crate::fields::{Fields, is_same};
use crate::line::Line;
use crate::record::{Record, ScriptSettings};
use crate::stage::Stage;
use crate::version::Version;
use pf_scenario::change::Change;
use pf_scenario::event::Event;
use pf_scenario::limits::LARGEST_DISTANCE;
use pf_scenario::settings::{LARGEST_CAP, MOST_PROCESSORS, Settings};
use pf_weight::base::LARGEST_BASE;

/// What a record says that comes at a stage of a script, or the first thing that is wrong with it: its length comes before
/// its numbers, and they from left to right. Whether the numbers of an event are within their limits is not tried.
#[tactic(auto, unfolding(crate::specs::Parsing::record_at))]
pub fn parse_record(stage: Stage, fields: &Fields) -> Result<Record, RecordFault>
    ensures { result ≡ record_at stage fields.now }
{
    match stage {
        Stage::Beginning => {
            if fields.is_word(0, b"pfair") {
                parse_heading(fields)
            } else {
                parse_opening(Version::First, fields)
            }
        }
        Stage::Headed => parse_opening(Version::Second, fields),
        Stage::Opened(version) => Ok(Record::Asks(parse_line(version, fields)?)),
    }
}

/// The heading `pfair,2`.
#[tactic(auto, unfolding(crate::specs::Parsing::heading_at))]
fn parse_heading(fields: &Fields) -> Result<Record, RecordFault>
    ensures { result ≡ heading_at fields.now }
{
    expect_length(fields, 2)?;
    if !fields.is_word(1, b"2") {
        return Err(fault_at(1, Reason::NoVersion));
    }
    Ok(Record::Heading)
}

/// Where the settings are expected.
#[tactic(auto, unfolding(crate::specs::Parsing::opening_at))]
fn parse_opening(version: Version, fields: &Fields) -> Result<Record, RecordFault>
    ensures { result ≡ opening_at version fields.now }
{
    if fields.is_word(0, b"settings") {
        return parse_settings(version, fields);
    }
    if names_line(version, fields) {
        return Err(fault_at(0, Reason::NoSettings));
    }
    Err(fault_at(0, Reason::NoRecord(version)))
}

/// Whether the first field names a record that may follow the settings.
#[tactic(auto, unfolding(crate::specs::Parsing::names_line, crate::specs::Fields::is_word))]
fn names_line(version: Version, fields: &Fields) -> bool
    ensures { result ≡ names_line version fields.now }
{
    let word = fields.field(0);
    is_same(word, b"join")
        || is_same(word, b"leave")
        || is_same(word, b"delay")
        || (version.has_limits() && is_same(word, b"limit"))
        || is_same(word, b"alter")
        || is_same(word, b"strike")
        || is_same(word, b"strict")
        || is_same(word, b"step")
}

/// The record `settings,M,BASE,CAP,EVERY`, each number within its limits.
#[tactic(auto, unfolding(crate::specs::Parsing::settings_at))]
fn parse_settings(version: Version, fields: &Fields) -> Result<Record, RecordFault>
    ensures { result ≡ settings_at version fields.now }
{
    expect_length(fields, 5)?;
    let processors = parse_within(fields, 1, MOST_PROCESSORS)?;
    let base = parse_within(fields, 2, LARGEST_BASE)?;
    let cap = parse_within(fields, 3, LARGEST_CAP)?;
    let every = parse_within(fields, 4, LARGEST_DISTANCE)?;
    Ok(Record::Settings(ScriptSettings {
        version,
        settings: make_settings(version, processors, base, cap),
        every,
    }))
}

/// The settings of a script of this version, of numbers that are within their limits.
fn make_settings(version: Version, processors: u64, base: u64, cap: u64) -> Settings
    requires { IsInLimits processors base cap }
    ensures { result ≡ record { processors = processors; base = base; cap = cap; horizon = horizon_of version } }
{
    let made = match version {
        Version::First => Settings::new(processors, base, cap),
        Version::Second => Settings::wide(processors, base, cap),
    };
    let Ok(settings) = made else { unreachable!() };
    settings
}

/// A record after the settings.
#[tactic(auto, unfolding(crate::specs::Parsing::line_at, crate::specs::Fields::is_word))]
fn parse_line(version: Version, fields: &Fields) -> Result<Line, RecordFault>
    ensures { result ≡ line_at version fields.now }
{
    let word = fields.field(0);
    if is_same(word, b"step") {
        return parse_steps(version, fields);
    }
    if is_same(word, b"strict") {
        return parse_edit(version, true, Reason::NoChange(version), fields, 1);
    }
    if is_same(word, b"settings") {
        return Err(fault_at(0, Reason::LateSettings));
    }
    parse_edit(version, false, Reason::NoRecord(version), fields, 0)
}

/// The record `step` or `step,N`.
#[tactic(auto, unfolding(crate::specs::Parsing::steps_at))]
fn parse_steps(version: Version, fields: &Fields) -> Result<Line, RecordFault>
    ensures { result ≡ steps_at version fields.now }
{
    match fields.len() {
        1 => Ok(Line::Steps(1)),
        2 => Ok(Line::Steps(parse_within(fields, 1, version.horizon())?)),
        _ => Err(fault_at(2, Reason::StepFields)),
    }
}

/// A change whose word stands at a place, strict or not; `none` is why it would be none.
#[tactic(auto, unfolding(crate::specs::Parsing::edit_at))]
fn parse_edit(
    version: Version,
    strict: bool,
    none: Reason,
    fields: &Fields,
    place: usize,
) -> Result<Line, RecordFault>
    requires { place ≤ 1 }
    ensures { result ≡ edit_at version strict none fields.now place }
{
    let change = parse_change(version, none, fields, place)?;
    Ok(Line::Edit { change, strict })
}

/// A change whose word stands at a place; `none` is why it would be none.
#[tactic(auto, unfolding(crate::specs::Parsing::change_at, crate::specs::Fields::is_word))]
fn parse_change(
    version: Version,
    none: Reason,
    fields: &Fields,
    place: usize,
) -> Result<Change, RecordFault>
    requires { place ≤ 1 }
    ensures { result ≡ change_at version none fields.now place }
{
    let word = fields.field(place);
    if is_same(word, b"strike") {
        return parse_strike(fields, place);
    }
    if is_same(word, b"alter") {
        return parse_alter(version, fields, place);
    }
    Ok(Change::Insert(parse_event(version, none, fields, place)?))
}

/// The change `strike,ID`.
#[tactic(auto, unfolding(crate::specs::Parsing::strike_at))]
fn parse_strike(fields: &Fields, place: usize) -> Result<Change, RecordFault>
    requires { place ≤ 1 }
    ensures { result ≡ strike_at fields.now place }
{
    expect_length(fields, place + 2)?;
    Ok(Change::Strike(parse_number_at(fields, place + 1)?))
}

/// The change `alter,ID,` and an event.
#[tactic(auto, unfolding(crate::specs::Parsing::alter_at))]
fn parse_alter(version: Version, fields: &Fields, place: usize) -> Result<Change, RecordFault>
    requires { place ≤ 1 }
    ensures { result ≡ alter_at version fields.now place }
{
    let id = parse_number_at(fields, place + 1)?;
    let event = parse_event(version, Reason::NoEvent(version), fields, place + 2)?;
    Ok(Change::Alter(id, event))
}

/// An event whose word stands at a place; `none` is why it would be none.
#[tactic(auto, unfolding(crate::specs::Parsing::event_at, crate::specs::Fields::is_word))]
fn parse_event(
    version: Version,
    none: Reason,
    fields: &Fields,
    place: usize,
) -> Result<Event, RecordFault>
    requires { place ≤ 3 }
    ensures { result ≡ event_at version none fields.now place }
{
    let word = fields.field(place);
    if is_same(word, b"join") {
        return parse_join(fields, place);
    }
    if is_same(word, b"leave") {
        return parse_leave(fields, place);
    }
    if is_same(word, b"delay") {
        return parse_delay(fields, place);
    }
    if version.has_limits() && is_same(word, b"limit") {
        return parse_limit(fields, place);
    }
    Err(fault_at(place, none))
}

/// The event `join,SLOT,TASK,COST,PERIOD,EARLY`.
#[tactic(auto, unfolding(crate::specs::Parsing::join_at))]
fn parse_join(fields: &Fields, place: usize) -> Result<Event, RecordFault>
    requires { place ≤ 3 }
    ensures { result ≡ join_at fields.now place }
{
    expect_length(fields, place + 6)?;
    Ok(Event::Join {
        slot: parse_number_at(fields, place + 1)?,
        task: parse_number_at(fields, place + 2)?,
        cost: parse_number_at(fields, place + 3)?,
        period: parse_number_at(fields, place + 4)?,
        early: parse_number_at(fields, place + 5)?,
    })
}

/// The event `leave,SLOT,TASK`.
#[tactic(auto, unfolding(crate::specs::Parsing::leave_at))]
fn parse_leave(fields: &Fields, place: usize) -> Result<Event, RecordFault>
    requires { place ≤ 3 }
    ensures { result ≡ leave_at fields.now place }
{
    expect_length(fields, place + 3)?;
    Ok(Event::Leave {
        slot: parse_number_at(fields, place + 1)?,
        task: parse_number_at(fields, place + 2)?,
    })
}

/// The event `delay,SLOT,TASK,BY`.
#[tactic(auto, unfolding(crate::specs::Parsing::delay_at))]
fn parse_delay(fields: &Fields, place: usize) -> Result<Event, RecordFault>
    requires { place ≤ 3 }
    ensures { result ≡ delay_at fields.now place }
{
    expect_length(fields, place + 4)?;
    Ok(Event::Delay {
        slot: parse_number_at(fields, place + 1)?,
        task: parse_number_at(fields, place + 2)?,
        by: parse_number_at(fields, place + 3)?,
    })
}

/// The event `limit,SLOT,COUNT`.
#[tactic(auto, unfolding(crate::specs::Parsing::limit_at))]
fn parse_limit(fields: &Fields, place: usize) -> Result<Event, RecordFault>
    requires { place ≤ 3 }
    ensures { result ≡ limit_at fields.now place }
{
    expect_length(fields, place + 3)?;
    Ok(Event::Limit {
        slot: parse_number_at(fields, place + 1)?,
        count: parse_number_at(fields, place + 2)?,
    })
}

/// Where so many fields are expected.
fn expect_length(fields: &Fields, count: usize) -> Result<(), RecordFault>
    requires { count ≤ 9 }
    ensures { result ≡ of_length fields.now count }
{
    let length = fields.len();
    if length == count {
        return Ok(());
    }
    Err(fault_at(length.min(count), Reason::Fields(count)))
}

/// The number of 1 to `most` that is expected at a place.
#[tactic(auto, unfolding(crate::specs::Parsing::number_within))]
fn parse_within(fields: &Fields, place: usize, most: u64) -> Result<u64, RecordFault>
    requires { place ≤ 9 }
    ensures number { result ≡ number_within fields.now place most }
    ensures within { IfOk result (λ n. (1 ≤ n) × (n ≤ most)) }
{
    let number = parse_number_at(fields, place)?;
    if number == 0 || number > most {
        return Err(fault_at(place, Reason::Outside { number, most }));
    }
    Ok(number)
}

/// The number that is expected at a place.
#[tactic(auto, unfolding(crate::specs::Parsing::number_at))]
fn parse_number_at(fields: &Fields, place: usize) -> Result<u64, RecordFault>
    requires { place ≤ 9 }
    ensures { result ≡ number_at fields.now place }
{
    fields
        .number(place)
        .ok_or(fault_at(place, Reason::NoNumber))
}

/// A fault of the field at a place from 0.
fn fault_at(place: usize, reason: Reason) -> RecordFault
    requires { place ≤ 9 }
    ensures { result ≡ fault_at place reason }
{
    RecordFault {
        field: place + 1,
        reason,
    }
}
