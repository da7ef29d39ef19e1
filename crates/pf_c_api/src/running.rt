ghost use Rattle.std.specs.Prelude.{ℕ, ◌≡◌, ◌≤◌, None, Some, OnOk, OnErr, length, take, replicate};
ghost use Rattle.pf_desk.specs.declared.command.Command.TheVariants.{Step};
ghost use Rattle.pf_desk.specs.Desk.{AnswersAll, IsDesk};
ghost use Rattle.pf_script_desk.specs.Asked.{commands_of};
ghost use Rattle.pf_script.specs.declared.version.Version.TheVariants.{Second};
ghost use Rattle.pf_script.specs.Opened.{IsOpening};
ghost use Rattle.pf_script.specs.Told.{readings_after, rest_in, told};
ghost use Rattle.pf_c_forms.specs.declared.status.TheConstants.{NOT_OPEN};
ghost use Rattle.pf_c_api.specs.Commanded.{Changes};
ghost use Rattle.pf_c_api.specs.Running.{AreBothBad, CarriesOut, OpensLines, OpensScript, OpensTold, RunsTold, place_told, script_told, told_plan, told_with};

use crate::handle::Handle;
use crate::opening::boxed_desk;
use crate::raw_bad_record::RawBadRecord;
use csv::ByteRecord;
use pf_c_forms::status::{ALREADY_OPEN, BAD_RECORD, NO_MEMORY, NOT_OPEN, OK};
use pf_desk::command::Command;
use pf_desk::desk::Desk;
use pf_order::meter::Meter;
use pf_plain_script::plain::{PlainScript, plain_script};
use pf_script::fault::ScriptFault;
use pf_script::line::Line;
use pf_script::line_reader::LineReader;
use pf_script::opened::OpenedScript;
use pf_script::plan::fault::BadRecord;
use pf_script::version::Version;
use pf_vocabulary::names::titles::Titles;
use std::alloc::{AllocError, Global};

/// Has the desk answer the commands of records, as they stand after the settings in a script of the second version, one
/// after another up to the first bad one. Names and labels are none of them: the titles of the desk are as before.
///
/// # Errors
///
/// `BAD_RECORD` where a record is none: `bad` tells where it is, and those before it were carried out. `NO_MEMORY`: the first
/// commands were answered. `NOT_OPEN`. With these two `bad` is as before.
#[unsafe(no_mangle)]
pub extern "C" fn pfair_run(
    alloc: Global,
    desk: &mut Handle,
    caller: u32,
    records: &[u8],
    bad: &mut RawBadRecord,
) -> u32
    ensures runs { Changes desk.old.value result desk.new.value (RunsTold caller (rest_in (readings_after Second records.now)) result bad.old bad.new) }
    ensures closed { result ≡ NOT_OPEN → bad.new ≡ bad.old }
{
    match desk.take(alloc) {
        None => NOT_OPEN,
        Some(mut held) => {
            let lines = LineReader::after_settings(alloc, Version::Second, records);
            let status = run(alloc, &mut held.desk, caller, lines, bad);
            desk.put(alloc, held);
            status
        }
    }
}

/// Opens a desk with the settings of a script at a closed handle, and has it answer the script's commands, up to the first
/// bad record. A plan is carried out by that of the second that belongs to it, and the texts of the desk
/// then show the names that it gave and how long a slot is.
///
/// # Errors
///
/// `BAD_RECORD` where a record is bad: `bad` tells where it is. After the settings, those before it were carried out; else
/// the handle stays closed. `NO_MEMORY`: it stays closed, or the first commands were answered. `ALREADY_OPEN` where it has a
/// desk. With these two `bad` is as before.
#[unsafe(no_mangle)]
pub extern "C" fn pfair_open_script(
    alloc: Global,
    desk: &mut Handle,
    caller: u32,
    script: &[u8],
    bad: &mut RawBadRecord,
) -> u32
    ensures { OpensScript caller (script_told script.now) desk.old.value result bad.old bad.new desk.new.value }
{
    match desk.take(alloc) {
        Some(held) => {
            desk.put(alloc, held);
            ALREADY_OPEN
        }
        None => open_script(alloc, desk, caller, script, bad),
    }
}

/// The same at a handle that is closed.
#[tactic(auto, using(crate::proofs::Titled::plan_opens, crate::proofs::Titled::other_opens, crate::proofs::Titled::both_bad))]
fn open_script(
    alloc: Global,
    desk: &mut Handle,
    caller: u32,
    script: &[u8],
    bad: &mut RawBadRecord,
) -> u32
    requires { desk.old.value ≡ None }
    ensures { OpensTold caller (script_told script.now).opening (script_told script.now) result bad.old bad.new desk.new.value }
{
    match plain_script(alloc, script) {
        Ok(Some(plain)) => open_plan(alloc, desk, caller, plain, bad),
        Ok(None) => open_text(alloc, desk, caller, script, Titles::none(alloc), bad),
        Err(_) => NO_MEMORY,
    }
}

/// The same of a plan, to which this one belongs.
#[tactic(auto, using(crate::proofs::Titled::opens_in_place))]
fn open_plan(
    alloc: Global,
    desk: &mut Handle,
    caller: u32,
    plain: PlainScript,
    bad: &mut RawBadRecord,
) -> u32
    requires closed { desk.old.value ≡ None }
    requires bad { AreBothBad plain.bad (told plain.text.items).rest.fault }
    ensures { OpensTold caller (told plain.text.items).opening (told_plan (told plain.text.items) plain.bad plain.titles)
        result bad.old bad.new desk.new.value }
{
    let PlainScript {
        text,
        origins: _,
        titles,
        bad: fault,
        last: _,
    } = plain;
    let status = open_text(alloc, desk, caller, &text, titles, bad);
    put_place(status, fault, bad);
    status
}

/// Puts the place of the bad record of a plan for that of the record that stands for it.
fn put_place(status: u32, fault: Option<BadRecord>, bad: &mut RawBadRecord)
    ensures { bad.new ≡ place_told status fault bad.old }
{
    if let Some(fault) = fault
        && status == BAD_RECORD
    {
        *bad = RawBadRecord::of_plan(fault);
    }
}

/// The same of a text that is a script of the first or the second version, with these titles.
fn open_text(
    alloc: Global,
    desk: &mut Handle,
    caller: u32,
    script: &[u8],
    titles: Titles,
    bad: &mut RawBadRecord,
) -> u32
    requires { desk.old.value ≡ None }
    ensures { OpensTold caller (told script.now).opening (told_with (told script.now) titles) result bad.old bad.new desk.new.value }
{
    let mut row = ByteRecord::new(alloc);
    match OpenedScript::open(alloc, script, &mut row) {
        Ok(opened) => open_lines(alloc, desk, caller, opened, titles, bad),
        Err(ScriptFault::Memory) => NO_MEMORY,
        Err(ScriptFault::Bad(fault) | ScriptFault::Missing(fault)) => {
            *bad = RawBadRecord::of(fault);
            BAD_RECORD
        }
    }
}

/// Opens a desk with the settings of a script and these titles at a handle that is closed, and has it answer the lines after the
/// settings.
fn open_lines(
    alloc: Global,
    desk: &mut Handle,
    caller: u32,
    script: OpenedScript<'_>,
    titles: Titles,
    bad: &mut RawBadRecord,
) -> u32
    requires closed { desk.old.value ≡ None }
    requires opening { IsOpening script.opening }
    ensures { OpensLines caller script.entry.opening
        (told_with (record { opening = Some script.entry.opening; rest = script.entry.lines }) titles) result bad.old bad.new desk.new.value }
{
    let OpenedScript { opening, lines } = script;
    match boxed_desk(alloc, opening.settings, opening.every, titles) {
        Ok(mut held) => {
            let status = run(alloc, &mut held.desk, caller, lines, bad);
            desk.put(alloc, held);
            status
        }
        Err(status) => status,
    }
}

/// Has a desk answer the commands of lines, up to the first bad record.
#[tactic(auto, using(crate::proofs::Records::fault_told, crate::proofs::Records::no_fault_told))]
pub(crate) fn run(
    alloc: Global,
    desk: &mut Desk,
    caller: u32,
    lines: LineReader<'_>,
    bad: &mut RawBadRecord,
) -> u32
    ensures runs { RunsTold caller lines.entry result bad.old bad.new desk.old desk.new }
    ensures desk { IsDesk desk.new }
    ensures open { result ≡ NOT_OPEN → bad.new ≡ bad.old }
{
    match carry_out(alloc, desk, caller, lines) {
        Ok(()) => OK,
        Err(ScriptFault::Memory) => NO_MEMORY,
        Err(ScriptFault::Bad(fault) | ScriptFault::Missing(fault)) => {
            *bad = RawBadRecord::of(fault);
            BAD_RECORD
        }
    }
}

/// Has a desk answer the commands of lines, up to the first fault.
fn carry_out(
    alloc: Global,
    desk: &mut Desk,
    caller: u32,
    mut lines: LineReader<'_>,
) -> Result<(), ScriptFault>
    ensures answers { CarriesOut result caller lines.entry desk.old desk.new }
    ensures desk { IsDesk desk.new }
{
    // A field is read, so that what holds of every desk is known where no record is left.
    let _ = desk.now();
    let mut row = ByteRecord::new(alloc);
    'records: while let Some(line) = lines.next(&mut row)? {
        answer_line(desk, caller, line.asks)?;
    }
    Ok(())
}

/// Has a desk answer the commands of a line.
fn answer_line(desk: &mut Desk, caller: u32, line: Line) -> Result<(), AllocError>
    ensures ok { OnOk result (AnswersAll caller (commands_of line) desk.old desk.new) }
    ensures err { OnErr result ((k : ℕ) × (k ≤ length (commands_of line)) × AnswersAll caller (take k (commands_of line)) desk.old desk.new) }
    ensures desk { IsDesk desk.new }
{
    match line {
        Line::Edit { change, strict } => {
            let mut meter = Meter::new();
            desk.apply_all(&mut meter, caller, &[Command::Edit { change, strict }])
        }
        Line::Steps(count) => answer_steps(desk, caller, count),
    }
}

/// Has a desk answer so many steps.
fn answer_steps(desk: &mut Desk, caller: u32, count: u64) -> Result<(), AllocError>
    ensures ok { OnOk result (AnswersAll caller (replicate count Step) desk.old desk.new) }
    ensures err { OnErr result ((k : ℕ) × (k ≤ length (replicate count Step)) × AnswersAll caller (take k (replicate count Step)) desk.old desk.new) }
    ensures desk { IsDesk desk.new }
{
    // A field is read, so that what holds of every desk is known where no slot is asked for.
    let _ = desk.now();
    let mut meter = Meter::new();
    for _turn in 0..count {
        let _ = desk.apply(&mut meter, caller, Command::Step)?;
    }
    Ok(())
}
