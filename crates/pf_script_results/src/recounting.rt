ghost use Rattle.std.specs.Prelude.{◌≡◌, ℕ, List, Option, None, Some, IfOk, IfSome, IsSome, OnOk};
ghost use Rattle.std.specs.Option.{option_map};
ghost use Rattle.pf_script_run.specs.Carried.{IsOf, asked_in};
ghost use Rattle.pf_desk.specs.Machine.{State};
ghost use Rattle.pf_plain_script.specs.declared.origin.Origin.{Origin};
ghost use Rattle.pf_scenario.specs.Edit.{edit_fault};
ghost use Rattle.pf_scenario.specs.Scenario.{plan_after};
ghost use Rattle.pf_script_desk.specs.Asked.{commands_in};
ghost use Rattle.pf_script.specs.Told.{told};
ghost use Rattle.pf_script.specs.declared.line.Line.TheVariants as line;
ghost use Rattle.pf_script_results.specs.Places.{place_of};
ghost use Rattle.pf_script_results.specs.Recount.{behind_lines, behind_making, behind_refusal, behind_steps, recounted};
ghost use Rattle.pf_script_results.specs.Replies.{IsOwn};
ghost use Rattle.pf_script_results.specs.Walk.{IsAt, RiseAbove, TakesLine, Walks};

use crate::course::Course;
use crate::outcome::Outcome;
use crate::places::Places;
use crate::recount::Recount;
use crate::replies::Replies;
use crate::stop::Stop;
use crate::telling::Telling;
use csv::ByteRecord;
use pf_desk::command::Command;
use pf_desk::desk::Desk;
use pf_plain_script::origin::Origin;
use pf_run_notes::place::Place;
use pf_run_notes::refusals::RefusedChange;
use pf_scenario::apply_fault::ApplyFault;
use pf_scenario::change::Change;
use pf_scenario::scenario::Scenario;
use pf_scenario::settings::Settings;
use pf_script::fault::ScriptFault;
use pf_script::line::Line;
use pf_script::line_reader::LineReader;
use pf_script::opened::OpenedScript;
use pf_script::record::LineTold;
use pf_vocabulary::names::names::Names;
use std::alloc::{AllocError, Global};

/// Makes a change of the script's.
fn make(scenario: &mut Scenario, change: Change) -> Result<(), Stop>
    ensures made { OnOk result (scenario.new ≡ plan_after scenario.old change) }
    ensures own { edit_fault scenario.old change ≡ None → IsOwn result }
{
    match scenario.apply(change) {
        Ok(_) => Ok(()),
        Err(ApplyFault::Refused(_)) => Err(Stop::Foreign),
        Err(ApplyFault::NoMemory) => Err(Stop::NoMemory),
    }
}

/// The change of a record was made.
fn note_made(
    scenario: &mut Scenario,
    recount: &mut Recount,
    place: Place,
    change: Change,
) -> Result<(), Stop>
    ensures scenario { OnOk result (scenario.new ≡ plan_after scenario.old change) }
    ensures recount { OnOk result (recount.new ≡ behind_making place change recount.old) }
    ensures own { edit_fault scenario.old change ≡ None → IsOwn result }
{
    make(scenario, change)?;
    recount.note_made(place, change)?;
    Ok(())
}

/// The change of a record was refused.
fn note_refused(
    telling: &Telling<'_>,
    scenario: &Scenario,
    recount: &mut Recount,
    refused: RefusedChange,
) -> Result<(), Stop>
    ensures recount { OnOk result (recount.new ≡ behind_refusal telling.now.file.now telling.now.hints telling.now.names.now telling.now.whole scenario.now
        refused.place refused.change refused.fault recount.old) }
    ensures own { IsOwn result }
{
    recount.note_refused(telling, scenario, refused)?;
    Ok(())
}

/// Some of a record's steps were refused.
fn note_steps(
    telling: &Telling<'_>,
    scenario: &Scenario,
    recount: &mut Recount,
    place: Place,
    refused: u64,
    steps: u64,
) -> Result<(), Stop>
    ensures recount { OnOk result (recount.new ≡ behind_steps telling.now.file.now telling.now.whole place scenario.now.settings.horizon
        steps refused recount.old) }
    ensures own { IsOwn result }
{
    let horizon = scenario.settings().horizon();
    recount.note_steps(telling, place, horizon, refused, steps)?;
    Ok(())
}

/// Goes over a record with a change.
fn take_change(
    telling: &Telling<'_>,
    course: &mut Course<'_>,
    recount: &mut Recount,
    number: u64,
    change: Change,
    strict: bool,
) -> Result<(), Stop>
    ensures { Walks telling.now.file.now telling.now.hints telling.now.names.now telling.now.whole number (line.Edit change strict) result
        course.old recount.old course.new recount.new }
{
    let outcome = course.replies.answer(Command::Edit { change, strict })?;
    let place = course.places.place_of(number);
    match outcome {
        Outcome::Done => note_made(&mut course.scenario, recount, place, change),
        Outcome::Refused(fault) => {
            let refused = RefusedChange {
                place,
                change,
                fault,
            };
            note_refused(telling, &course.scenario, recount, refused)
        }
    }
}

/// Goes over a record with so many steps.
fn take_steps(
    telling: &Telling<'_>,
    course: &mut Course<'_>,
    recount: &mut Recount,
    number: u64,
    count: u64,
) -> Result<(), Stop>
    ensures { Walks telling.now.file.now telling.now.hints telling.now.names.now telling.now.whole number (line.Steps count) result
        course.old recount.old course.new recount.new }
{
    let refused = course.replies.steps(count)?;
    if refused == 0 {
        return Ok(());
    }
    let place = course.places.place_of(number);
    note_steps(telling, &course.scenario, recount, place, refused, count)
}

/// Goes over a record.
fn take_line(
    telling: &Telling<'_>,
    course: &mut Course<'_>,
    recount: &mut Recount,
    told: LineTold,
) -> Result<(), Stop>
    ensures { Walks telling.now.file.now telling.now.hints telling.now.names.now telling.now.whole told.number told.asks result
        course.old recount.old course.new recount.new }
{
    match told.asks {
        Line::Edit { change, strict } => {
            take_change(telling, course, recount, told.number, change, strict)
        }
        Line::Steps(count) => take_steps(telling, course, recount, told.number, count),
    }
}

/// The next record, which is read into `row`; none after the last one, and from the first bad one on.
fn next_line(lines: &mut LineReader<'_>, row: &mut ByteRecord) -> Result<Option<LineTold>, Stop>
    ensures taken { IfOk result (λ told. TakesLine told lines.old.lines lines.new.lines) }
    ensures own { IsOwn result }
{
    match lines.next(row) {
        Ok(told) => Ok(told),
        Err(ScriptFault::Bad(_)) => Ok(None),
        Err(ScriptFault::Missing(_)) => Ok(None),
        Err(ScriptFault::Memory) => Err(Stop::NoMemory),
    }
}

/// Goes over these records from a course on.
fn take_lines(
    telling: &Telling<'_>,
    mut course: Course<'_>,
    mut recount: Recount,
    mut lines: LineReader<'_>,
    mut row: ByteRecord,
) -> Result<Recount, Stop>
    ensures value { (origins : Option (List Origin)) (script : List ℕ) (bound : ℕ) (st : State) → IsAt origins script bound st course.entry →
        RiseAbove bound lines.entry.lines → IfOk result (λ r. r ≡ behind_lines telling.now.file.now telling.now.hints telling.now.names.now telling.now.whole
        (place_of origins script) st lines.entry.lines recount) }
    ensures own { (origins : Option (List Origin)) (script : List ℕ) (bound : ℕ) (st : State) → IsAt origins script bound st course.entry →
        RiseAbove bound lines.entry.lines → asked_in course.entry.replies ≡ commands_in lines.entry.lines → IsOwn result }
{
    'records: while let Some(told) = next_line(&mut lines, &mut row)? {
        take_line(telling, &mut course, &mut recount, told)?;
    }
    Ok(recount)
}

/// Stops where these are not the same settings.
#[tactic(auto, using(crate::proofs::Found::same_settings))]
fn check_settings(one: Settings, other: Settings) -> Result<(), Stop>
    ensures same { OnOk result (one ≡ other) }
    ensures own { one ≡ other → IsOwn result }
{
    if one.processors() != other.processors() {
        return Err(Stop::Foreign);
    }
    if one.base().get() != other.base().get() {
        return Err(Stop::Foreign);
    }
    if one.cap() != other.cap() {
        return Err(Stop::Foreign);
    }
    if one.horizon() != other.horizon() {
        return Err(Stop::Foreign);
    }
    Ok(())
}

/// What the records of a script came to that was carried out on this desk.
fn recount_script<'a>(
    telling: &Telling<'_>,
    script: &'a [u8],
    origins: Option<&'a [Origin]>,
    desk: &'a Desk,
    most: u64,
) -> Result<Recount, Stop>
    ensures value { IfOk result (λ r. Some r ≡
        recounted telling.now.file.now telling.now.hints telling.now.names.now (option_map (λ o. o.now) origins.entry) most telling.now.whole script.now) }
    ensures own { IsOf (told script.now) desk.now → IsOwn result }
{
    let mut row = ByteRecord::new(telling.alloc);
    let opened = match OpenedScript::open(telling.alloc, script, &mut row) {
        Ok(opened) => opened,
        Err(ScriptFault::Memory) => return Err(Stop::NoMemory),
        Err(_) => return Err(Stop::Foreign),
    };
    let opening = opened.opening;
    let settings = desk.scenario().settings();
    check_settings(opening.settings, settings)?;
    let course = Course {
        places: Places::new(script, origins),
        replies: Replies::new(desk.history()),
        scenario: Scenario::new(telling.alloc, opening.settings),
    };
    let recount = Recount::new(telling.alloc, most);
    take_lines(telling, course, recount, opened.lines, row)
}

/// What the records of a script came to that was carried out on this desk, up to its first bad record: the record that made each
/// event as it stands, the lines of the first `most` refused records of this file, with hints, where they are asked for, and, where
/// `whole` is asked for, each refused record. The script is the text of version 1 or 2 that was carried out; where it belongs to a
/// plan, `origins` are the records there that its own come from, and records are told by them. `None` where the desk has other settings than the
/// script, or answered other commands.
///
/// # Errors
///
/// Where memory is refused.
pub fn recount(
    alloc: Global,
    file: &[u8],
    hints: bool,
    names: &Names,
    script: &[u8],
    origins: Option<&[Origin]>,
    desk: &Desk,
    most: u64,
    whole: bool,
) -> Result<Option<Recount>, AllocError>
    ensures value { IfOk result (λ found. IfSome found (λ r. Some r ≡
        recounted file.now hints names.now (option_map (λ o. o.now) origins.entry) most whole script.now)) }
    ensures some { IsOf (told script.now) desk.now → IfOk result IsSome }
{
    let telling = Telling {
        alloc,
        file,
        hints,
        names,
        whole,
    };
    match recount_script(&telling, script, origins, desk, most) {
        Ok(recount) => Ok(Some(recount)),
        Err(Stop::Foreign) => Ok(None),
        Err(Stop::NoMemory) => Err(AllocError),
    }
}
