ghost use Rattle.std.specs.Prelude.{◌≡◌, ◌≤◌, ◌*◌, IfOk};
ghost use Rattle.pf_scenario.specs.System.{IsInLimits, wide_horizon};
ghost use Rattle.pf_script.specs.Plan.Parsing.{alter_at, cap_at, edit_at, every_at, first_labelled_at, free_name_at, given_label_at, id_at, label_at, labelled, labelled_again_at, labelled_at, name_at, nameless_at, names_record, opening_at, record_at, said_at, settings_at, slot_at, steps_at, strike_at};

use crate::fields::Fields;
use crate::line::Line;
use crate::plan::fault::{Reason, RecordFault};
use crate::plan::labels::Labels;
use crate::plan::number_fields::{expect_length, fault_at, parse_number, parse_within};
use crate::plan::parse_event::parse_event;
use crate::plan::said::Said;
use crate::plan::state::Progress;
use crate::record::ScriptSettings;
use crate::version::Version;
use pf_scenario::change::Change;
use pf_scenario::event::Event;
use pf_scenario::limits::LARGEST_DISTANCE;
use pf_scenario::settings::{LARGEST_CAP, MOST_PROCESSORS, Settings, WIDE_HORIZON};
use pf_vocabulary::names::name::{Name, is_letter_first};
use pf_vocabulary::names::names::Names;
use pf_vocabulary::names::slot_length::{LARGEST_LENGTH, SlotLength};
use pf_vocabulary::names::unit::Unit;
use pf_weight::base::LARGEST_BASE;
use pf_weight::task::LARGEST_TASK;

/// The distance of checkpoints, in slots, where a script tells none.
const USUAL_DISTANCE: u64 = 64;

/// What a record after the heading says, or the first thing that is wrong with it: its word comes first, then its length, then
/// its fields from left to right. Whether the numbers of an event are within their limits is not tried.
pub(crate) fn parse_record(progress: &Progress, fields: &Fields) -> Result<Said, RecordFault>
    ensures { result ≡ said_at progress.now fields.now }
{
    if progress.opened {
        parse_opened(progress, fields)
    } else {
        parse_opening(fields)
    }
}

/// Where the settings are expected.
#[tactic(auto, unfolding(crate::specs::Plan::Parsing::opening_at))]
fn parse_opening(fields: &Fields) -> Result<Said, RecordFault>
    ensures { result ≡ opening_at fields.now }
{
    if fields.is_word(0, b"settings") {
        return parse_settings(fields);
    }
    if names_record(fields) {
        return Err(fault_at(0, Reason::NoSettings));
    }
    Err(fault_at(0, Reason::NoRecord))
}

/// Whether the first field names a record that may follow the settings.
#[tactic(auto, unfolding(crate::specs::Plan::Parsing::names_record))]
fn names_record(fields: &Fields) -> bool
    ensures { result ≡ names_record fields.now }
{
    fields.is_word(0, b"slot")
        || fields.is_word(0, b"name")
        || fields.is_word(0, b"join")
        || fields.is_word(0, b"leave")
        || fields.is_word(0, b"delay")
        || fields.is_word(0, b"limit")
        || fields.is_word(0, b"label")
        || fields.is_word(0, b"alter")
        || fields.is_word(0, b"strike")
        || fields.is_word(0, b"strict")
        || fields.is_word(0, b"step")
}

/// The record `settings,M,BASE`, perhaps with `,CAP` and `,EVERY`, each number within its limits.
#[tactic(auto, unfolding(crate::specs::Plan::Parsing::settings_at))]
fn parse_settings(fields: &Fields) -> Result<Said, RecordFault>
    ensures { result ≡ settings_at fields.now }
{
    expect_length(fields, 3, 5, Reason::SettingsFields)?;
    let processors = parse_within(Reason::NoNumber, fields, 1, MOST_PROCESSORS)?;
    let base = parse_within(Reason::NoNumber, fields, 2, LARGEST_BASE)?;
    let cap = parse_cap(fields, processors, base)?;
    let every = parse_every(fields)?;
    Ok(Said::Settings(ScriptSettings {
        version: Version::Second,
        settings: make_settings(processors, base, cap),
        every,
    }))
}

/// CAP, which is `full` where it is left out: what fills the processors.
#[tactic(auto, unfolding(crate::specs::Plan::Parsing::cap_at))]
fn parse_cap(fields: &Fields, processors: u64, base: u64) -> Result<u64, RecordFault>
    requires some { (1 ≤ processors) × (1 ≤ base) }
    requires few { (processors ≤ MOST_PROCESSORS) × (base ≤ LARGEST_BASE) }
    ensures cap { result ≡ cap_at fields.now (processors * base) }
    ensures within { IfOk result (λ n. (1 ≤ n) × (n ≤ LARGEST_CAP)) }
{
    if fields.len() <= 3 || fields.is_word(3, b"full") {
        return Ok(processors * base);
    }
    parse_within(Reason::NoCap, fields, 3, LARGEST_CAP)
}

/// EVERY, which is 64 where it is left out.
#[tactic(auto, unfolding(crate::specs::Plan::Parsing::every_at))]
fn parse_every(fields: &Fields) -> Result<u64, RecordFault>
    ensures { result ≡ every_at fields.now }
{
    if fields.len() <= 4 {
        return Ok(USUAL_DISTANCE);
    }
    parse_within(Reason::NoNumber, fields, 4, LARGEST_DISTANCE)
}

/// Wide settings, of numbers that are within their limits.
fn make_settings(processors: u64, base: u64, cap: u64) -> Settings
    requires { IsInLimits processors base cap }
    ensures { result ≡ record { processors = processors; base = base; cap = cap; horizon = wide_horizon } }
{
    let Ok(settings) = Settings::wide(processors, base, cap) else {
        unreachable!()
    };
    settings
}

/// A record after the settings.
#[tactic(auto, unfolding(crate::specs::Plan::Parsing::record_at))]
fn parse_opened(progress: &Progress, fields: &Fields) -> Result<Said, RecordFault>
    ensures { result ≡ record_at progress.now fields.now }
{
    if fields.is_word(0, b"step") {
        return parse_steps(fields);
    }
    if fields.is_word(0, b"strict") {
        return parse_edit(progress, true, Reason::NoChange, fields, 1);
    }
    if fields.is_word(0, b"settings") {
        return Err(fault_at(0, Reason::LateSettings));
    }
    if fields.is_word(0, b"slot") {
        return parse_slot(progress, fields);
    }
    if fields.is_word(0, b"name") {
        return parse_name(&progress.names, fields);
    }
    parse_edit(progress, false, Reason::NoRecord, fields, 0)
}

/// The record `step` or `step,N`.
#[tactic(auto, unfolding(crate::specs::Plan::Parsing::steps_at))]
fn parse_steps(fields: &Fields) -> Result<Said, RecordFault>
    ensures { result ≡ steps_at fields.now }
{
    match fields.len() {
        1 => Ok(Said::Asks(Line::Steps(1), None)),
        2 => {
            let count = parse_within(Reason::NoNumber, fields, 1, WIDE_HORIZON)?;
            Ok(Said::Asks(Line::Steps(count), None))
        }
        _ => Err(fault_at(2, Reason::StepFields)),
    }
}

/// The record `slot,LENGTH,UNIT`, once, before all changes and steps.
#[tactic(auto, unfolding(crate::specs::Plan::Parsing::slot_at))]
fn parse_slot(progress: &Progress, fields: &Fields) -> Result<Said, RecordFault>
    ensures { result ≡ slot_at progress.now fields.now }
{
    if progress.slot.is_some() || progress.begun {
        return Err(fault_at(0, Reason::LateSlot));
    }
    expect_length(fields, 3, 3, Reason::Fields(3))?;
    let length = parse_within(Reason::NoNumber, fields, 1, LARGEST_LENGTH)?;
    let unit = Unit::named(fields.field(2)).ok_or(fault_at(2, Reason::NoUnit))?;
    Ok(Said::Slot(SlotLength { length, unit }))
}

/// The record `name,TASK,TEXT`.
#[tactic(auto, unfolding(crate::specs::Plan::Parsing::name_at))]
fn parse_name(names: &Names, fields: &Fields) -> Result<Said, RecordFault>
    ensures { result ≡ name_at names.now fields.now }
{
    expect_length(fields, 3, 3, Reason::Fields(3))?;
    let task = parse_nameless(names, fields)?;
    let name = parse_free_name(names, fields)?;
    Ok(Said::Name(task, name))
}

/// A task that has no name yet.
#[tactic(auto, unfolding(crate::specs::Plan::Parsing::nameless_at))]
fn parse_nameless(names: &Names, fields: &Fields) -> Result<u64, RecordFault>
    ensures { result ≡ nameless_at names.now fields.now }
{
    let task = parse_within(Reason::NoNumber, fields, 1, LARGEST_TASK)?;
    if names.of_task(task).is_some() {
        return Err(fault_at(1, Reason::HasName(task)));
    }
    Ok(task)
}

/// A name that no task has yet.
#[tactic(auto, unfolding(crate::specs::Plan::Parsing::free_name_at))]
fn parse_free_name(names: &Names, fields: &Fields) -> Result<Name, RecordFault>
    ensures { result ≡ free_name_at names.now fields.now }
{
    let field = fields.field(2);
    let Some(name) = Name::new(field) else {
        return Err(fault_at(2, Reason::NoName));
    };
    match names.task_of(field) {
        Some(task) => Err(fault_at(2, Reason::NameOf(task))),
        None => Ok(name),
    }
}

/// A change whose word stands at a place, strict or not; `none` is why it would be none.
#[tactic(auto, unfolding(crate::specs::Plan::Parsing::edit_at))]
fn parse_edit(
    progress: &Progress,
    strict: bool,
    none: Reason,
    fields: &Fields,
    place: usize,
) -> Result<Said, RecordFault>
    requires { place ≤ 1 }
    ensures { result ≡ edit_at progress.now strict none fields.now place }
{
    if fields.is_word(place, b"strike") {
        let change = parse_strike(progress, fields, place)?;
        return Ok(Said::Asks(Line::Edit { change, strict }, None));
    }
    if fields.is_word(place, b"alter") {
        let change = parse_alter(progress, fields, place)?;
        return Ok(Said::Asks(Line::Edit { change, strict }, None));
    }
    if fields.is_word(place, b"label") {
        return parse_labelled(progress, strict, fields, place);
    }
    let change = Change::Insert(parse_event(&progress.names, none, fields, place)?);
    Ok(Said::Asks(Line::Edit { change, strict }, None))
}

/// The change `strike,ID`.
#[tactic(auto, unfolding(crate::specs::Plan::Parsing::strike_at))]
fn parse_strike(progress: &Progress, fields: &Fields, place: usize) -> Result<Change, RecordFault>
    requires { place ≤ 1 }
    ensures { result ≡ strike_at progress.now fields.now place }
{
    expect_length(fields, place + 2, place + 2, Reason::Fields(place + 2))?;
    Ok(Change::Strike(parse_id(&progress.labels, fields, place + 1)?))
}

/// The change `alter,ID,` and an event.
#[tactic(auto, unfolding(crate::specs::Plan::Parsing::alter_at))]
fn parse_alter(progress: &Progress, fields: &Fields, place: usize) -> Result<Change, RecordFault>
    requires { place ≤ 1 }
    ensures { result ≡ alter_at progress.now fields.now place }
{
    let id = parse_id(&progress.labels, fields, place + 1)?;
    let event = parse_event(&progress.names, Reason::NoEvent, fields, place + 2)?;
    Ok(Change::Alter(id, event))
}

/// A labelled event.
#[tactic(auto, unfolding(crate::specs::Plan::Parsing::labelled_at))]
fn parse_labelled(
    progress: &Progress,
    strict: bool,
    fields: &Fields,
    place: usize,
) -> Result<Said, RecordFault>
    requires { place ≤ 1 }
    ensures { result ≡ labelled_at progress.now strict fields.now place }
{
    if fields.is_word(place + 2, b"again") {
        return parse_labelled_again(progress, strict, fields, place);
    }
    parse_first_labelled(progress, strict, fields, place)
}

/// The change `label,TEXT,` and an event.
#[tactic(auto, unfolding(crate::specs::Plan::Parsing::first_labelled_at))]
fn parse_first_labelled(
    progress: &Progress,
    strict: bool,
    fields: &Fields,
    place: usize,
) -> Result<Said, RecordFault>
    requires { place ≤ 1 }
    ensures { result ≡ first_labelled_at progress.now strict fields.now place }
{
    let label = parse_label(&progress.labels, fields, place + 1)?;
    let event = parse_event(&progress.names, Reason::NoEvent, fields, place + 2)?;
    Ok(labelled(strict, label, event))
}

/// The change `label,TEXT,again,` and an event.
#[tactic(auto, unfolding(crate::specs::Plan::Parsing::labelled_again_at))]
fn parse_labelled_again(
    progress: &Progress,
    strict: bool,
    fields: &Fields,
    place: usize,
) -> Result<Said, RecordFault>
    requires { place ≤ 1 }
    ensures { result ≡ labelled_again_at progress.now strict fields.now place }
{
    let label = parse_given_label(&progress.labels, fields, place + 1)?;
    let event = parse_event(&progress.names, Reason::NoEvent, fields, place + 3)?;
    Ok(labelled(strict, label, event))
}

/// The insert of an event that goes by a label.
fn labelled(strict: bool, label: Name, event: Event) -> Said
    ensures { result ≡ labelled strict label event }
{
    let change = Change::Insert(event);
    Said::Asks(Line::Edit { change, strict }, Some(label))
}

/// A label that was not given yet.
#[tactic(auto, unfolding(crate::specs::Plan::Parsing::label_at))]
fn parse_label(labels: &Labels, fields: &Fields, place: usize) -> Result<Name, RecordFault>
    requires { place ≤ 9 }
    ensures { result ≡ label_at labels.now fields.now place }
{
    let field = fields.field(place);
    let Some(label) = Name::new(field) else {
        return Err(fault_at(place, Reason::NoLabel));
    };
    if labels.number_of(field).is_some() {
        return Err(fault_at(place, Reason::LabelTaken));
    }
    Ok(label)
}

/// A label that was given.
#[tactic(auto, unfolding(crate::specs::Plan::Parsing::given_label_at))]
fn parse_given_label(labels: &Labels, fields: &Fields, place: usize) -> Result<Name, RecordFault>
    requires { place ≤ 9 }
    ensures { result ≡ given_label_at labels.now fields.now place }
{
    let field = fields.field(place);
    let Some(label) = Name::new(field) else {
        return Err(fault_at(place, Reason::NoLabel));
    };
    if labels.number_of(field).is_none() {
        return Err(fault_at(place, Reason::LabelUnknown));
    }
    Ok(label)
}

/// The number of an event: that of a label, or a number.
#[tactic(auto, unfolding(crate::specs::Plan::Parsing::id_at))]
fn parse_id(labels: &Labels, fields: &Fields, place: usize) -> Result<u64, RecordFault>
    requires { place ≤ 9 }
    ensures { result ≡ id_at labels.now fields.now place }
{
    let field = fields.field(place);
    if !is_letter_first(field) {
        return parse_number(Reason::NoNumber, fields, place);
    }
    labels
        .number_of(field)
        .ok_or(fault_at(place, Reason::LabelUnknown))
}
