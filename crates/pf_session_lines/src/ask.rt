ghost use Rattle.std.specs.Prelude.{◌≡◌, ◌≤◌};
ghost use Rattle.pf_session_lines.specs.Asked.{alone, asked_at, format_at, named_at, number_at, numbered_at, question_at, range_at, ranged_at, task_at, task_if, word_asked};

use crate::asked::Asked;
use crate::fault::{LineFault, LineReason, expect_length, fault_at};
use crate::wanted::Wanted;
use crate::word::{Word, has_range};
use pf_script::fields::Fields;
use pf_script::plan::state::Progress;
use pf_vocabulary::names::name::{Name, is_letter_first};
use pf_vocabulary::names::names::Names;
use pf_vocabulary::options::format::Format;
use pf_vocabulary::options::slot_range::SlotRange;
use pf_vocabulary::questions::question::{Question, WhyFormat};
use pf_vocabulary::questions::task_asked::TaskAsked;
use pf_weight::task::LARGEST_TASK;

/// What a word asks for after the lines before it, or the first thing that is wrong with its fields: whether the settings came is
/// first, then their number, then the fields from left to right.
#[tactic(auto, unfolding(crate::specs::Asked::asked_at))]
pub(crate) fn ask(progress: &Progress, word: Word, fields: &Fields) -> Result<Asked, LineFault>
    ensures { result ≡ asked_at progress.now word fields.now }
{
    if !progress.opened && !word.is_early() {
        return Err(fault_at(0, LineReason::NoSettings));
    }
    ask_word(&progress.names, word, fields)
}

/// What a word asks for that may come here.
#[tactic(auto, unfolding(crate::specs::Asked::word_asked))]
fn ask_word(names: &Names, word: Word, fields: &Fields) -> Result<Asked, LineFault>
    ensures { result ≡ word_asked names.now word fields.now }
{
    match word {
        Word::Shows(format) => Ok(Asked::Shown(Wanted::Report(ask_format(format, fields)?))),
        Word::Why => Ok(Asked::Shown(Wanted::Why(ask_question(names, fields)?))),
        Word::Fit => ask_alone(fields, Asked::Shown(Wanted::Fit)),
        Word::Reverse(reversal) => ask_alone(fields, Asked::Reverse(reversal)),
        Word::Save => {
            expect_length(fields, 2, 2)?;
            Ok(Asked::Save)
        }
        Word::Help => ask_alone(fields, Asked::Help),
        Word::Quit => ask_alone(fields, Asked::Quit),
    }
}

/// A word alone.
fn ask_alone(fields: &Fields, asked: Asked) -> Result<Asked, LineFault>
    ensures { result ≡ alone fields.now asked }
{
    expect_length(fields, 1, 1)?;
    Ok(asked)
}

/// The number that is expected at a place.
#[tactic(auto, unfolding(crate::specs::Asked::number_at))]
fn parse_number(fields: &Fields, place: usize) -> Result<u64, LineFault>
    requires { place ≤ 3 }
    ensures { result ≡ number_at fields.now place }
{
    fields
        .number(place)
        .ok_or(fault_at(place, LineReason::NoNumber))
}

/// F and T, or F alone, or neither.
#[tactic(auto, unfolding(crate::specs::Asked::range_at))]
fn parse_range(fields: &Fields) -> Result<SlotRange, LineFault>
    ensures { result ≡ range_at fields.now }
{
    match fields.len() {
        1 => Ok(SlotRange::whole()),
        2 => {
            let from = Some(parse_number(fields, 1)?);
            Ok(SlotRange { from, to: None })
        }
        _ => {
            let from = Some(parse_number(fields, 1)?);
            let to = Some(parse_number(fields, 2)?);
            Ok(SlotRange { from, to })
        }
    }
}

/// A format with its range.
#[tactic(auto, unfolding(crate::specs::Asked::ranged_at))]
fn ask_ranged(format: Format, fields: &Fields) -> Result<Format, LineFault>
    ensures { result ≡ ranged_at format fields.now }
{
    expect_length(fields, 1, 3)?;
    let range = parse_range(fields)?;
    let whole = format;
    match format.within(range) {
        Some(format) => Ok(format),
        None => Ok(whole),
    }
}

/// A format, and after some of them F, or F and T.
#[tactic(auto, unfolding(crate::specs::Asked::format_at))]
fn ask_format(format: Format, fields: &Fields) -> Result<Format, LineFault>
    ensures { result ≡ format_at format fields.now }
{
    if has_range(&format) {
        return ask_ranged(format, fields);
    }
    expect_length(fields, 1, 1)?;
    Ok(format)
}

/// A task by its name, which was given.
#[tactic(auto, unfolding(crate::specs::Asked::named_at))]
fn parse_named(names: &Names, fields: &Fields, place: usize) -> Result<TaskAsked, LineFault>
    requires { place ≤ 3 }
    ensures { result ≡ named_at names.now fields.now place }
{
    let field = fields.field(place);
    if let Some(name) = Name::new(field) {
        if names.task_of(field).is_some() {
            return Ok(TaskAsked::Named(name));
        }
    }
    Err(fault_at(place, LineReason::NoTask))
}

/// A task by its number.
#[tactic(auto, unfolding(crate::specs::Asked::numbered_at))]
fn parse_numbered(fields: &Fields, place: usize) -> Result<TaskAsked, LineFault>
    requires { place ≤ 3 }
    ensures { result ≡ numbered_at fields.now place }
{
    let number = parse_number(fields, place)?;
    if number == 0 || number > LARGEST_TASK {
        let most = LARGEST_TASK;
        return Err(fault_at(place, LineReason::Outside { number, most }));
    }
    Ok(TaskAsked::Number(number))
}

/// A task, by its name or by its number.
#[tactic(auto, unfolding(crate::specs::Asked::task_at))]
fn parse_task(names: &Names, fields: &Fields, place: usize) -> Result<TaskAsked, LineFault>
    requires { place ≤ 3 }
    ensures { result ≡ task_at names.now fields.now place }
{
    if is_letter_first(fields.field(place)) {
        parse_named(names, fields, place)
    } else {
        parse_numbered(fields, place)
    }
}

/// TASK, which may be left out.
#[tactic(auto, unfolding(crate::specs::Asked::task_if))]
fn parse_task_if(names: &Names, fields: &Fields) -> Result<Option<TaskAsked>, LineFault>
    ensures { result ≡ task_if names.now fields.now }
{
    if fields.len() <= 2 {
        return Ok(None);
    }
    Ok(Some(parse_task(names, fields, 2)?))
}

/// `why,SLOT` and perhaps `,TASK`.
#[tactic(auto, unfolding(crate::specs::Asked::question_at))]
fn ask_question(names: &Names, fields: &Fields) -> Result<Question, LineFault>
    ensures { result ≡ question_at names.now fields.now }
{
    expect_length(fields, 2, 3)?;
    let slot = parse_number(fields, 1)?;
    let task = parse_task_if(names, fields)?;
    Ok(Question {
        slot,
        task,
        format: WhyFormat::Text,
    })
}
