ghost use Rattle.std.specs.Prelude.{◌≡◌, ◌&&◌, [], IfOk, option_map};
ghost use Rattle.pf_script_run.specs.Carried.{IsOf};
ghost use Rattle.pf_script.specs.FaultNotes.FileFaults.{file_fault_of};
ghost use Rattle.pf_plain_script.specs.Plain.{plain};
ghost use Rattle.pf_cli.specs.Ends.{AreRunNotes, IsTextBy, LeavesDesk, outcome_of};
ghost use Rattle.pf_cli.specs.Noted.{AreNotesOf, IsUnreadNote, OneOf, noting_behind, notes_in};
ghost use Rattle.pf_cli.specs.Source.{told_name};
ghost use Rattle.pf_script.specs.Told.{told};
ghost use Rattle.pf_arguments.specs.Asked.{name_of};
ghost use Rattle.std.specs.declared.io.ErrorKind.{ErrorKind};

use crate::noted::Noted;
use crate::noting::Noting;
use crate::script_source::told_name;
use crate::task_end::TaskEnd;
use pf_commands::ran::Ran;
use pf_desk::desk::Desk;
use pf_plain_script::origin::Origin;
use pf_script::fault_notes::file_fault::{FileFault, file_fault_line};
use pf_script_notes::behind_fault::fault_note;
use pf_script_notes::behind_run::{desk_notes, script_notes};
use pf_vocabulary::fault::ending::Ending;
use pf_vocabulary::fault::fault::Fault;
use pf_vocabulary::names::names::Names;
use std::alloc::{AllocError, Global};
use std::fs::File;
use std::io::{ErrorKind, Read};
use std::rt::Files;

/// The notes after what a task answers to the script of this file, or after its fault.
///
/// # Errors
///
/// `NoMemory` where memory is refused for them, and `BadRecord` at a record that is none of the script's, where it is carried out
/// for them.
pub(crate) fn notes_behind<A>(
    alloc: Global,
    noting: Noting,
    file: &[u8],
    script: &[u8],
    answer: &Result<A, Fault>,
) -> Result<Vec<u8>, Fault>
    ensures { AreNotesOf noting file.now script.now answer.now result }
{
    if !noting.asked {
        return Ok(Vec::new(alloc));
    }
    match answer {
        Err(fault) => fault_note(alloc, file, script, noting.hints, noting.range, *fault),
        Ok(_) if noting.follows => script_notes(alloc, file, script),
        Ok(_) => Ok(Vec::new(alloc)),
    }
}

/// What a task came to with the script of this file, or with its list of tasks, and the notes after that.
pub(crate) fn with_notes(
    alloc: Global,
    noting: Noting,
    file: &[u8],
    script: &[u8],
    outcome: Result<Ending, Fault>,
) -> Noted
    ensures outcome { result.outcome ≡ outcome }
    ensures notes { AreNotesOf (noting_behind noting outcome) file.now script.now outcome result.notes }
{
    let notes = notes_behind(alloc, noting.behind(&outcome), file, script, &outcome);
    Noted { outcome, notes }
}

/// The same of a task that ended so. What a script of any version has carried out is this text, of version 1 or 2, with these origins
/// where it is a plan, and these names: after a run the notes are made of the desk that it left.
#[tactic(auto, using(crate::proofs::RunNotes::run_noted))]
pub(crate) fn end_with_notes(
    alloc: Global,
    noting: Noting,
    file: &[u8],
    script: &[u8],
    text: &[u8],
    origins: Option<&[Origin]>,
    names: &Names,
    end: TaskEnd,
) -> Noted
    requires carried { IsTextBy (plain script.now) script.now text.now (option_map (λ o. o.now) origins) names.now }
    requires desk { LeavesDesk text.now end }
    ensures outcome { result.outcome ≡ outcome_of end }
    ensures notes { AreNotesOf (noting_behind noting (outcome_of end)) file.now script.now (outcome_of end) result.notes }
{
    match end {
        TaskEnd::Ran(Ran { ending, desk }) => {
            let outcome = Ok(ending);
            let noting = noting.behind(&outcome);
            let notes = run_notes(alloc, noting, file, text, origins, names, &desk);
            Noted { outcome, notes }
        }
        TaskEnd::Other(outcome) => with_notes(alloc, noting, file, script, outcome),
    }
}

/// The notes after a run of this text, by the desk that carried it out, where they are asked for and follow.
fn run_notes(
    alloc: Global,
    noting: Noting,
    file: &[u8],
    text: &[u8],
    origins: Option<&[Origin]>,
    names: &Names,
    desk: &Desk,
) -> Result<Vec<u8>, Fault>
    requires { IsOf (told text.now) desk.now }
    ensures { OneOf (noting.asked && noting.follows) (AreRunNotes file.now (option_map (λ o. o.now) origins.entry) names.now text.now result) (notes_in result ≡ []) }
{
    if !noting.asked || !noting.follows {
        return Ok(Vec::new(alloc));
    }
    match desk_notes(alloc, file, text, origins, names, desk) {
        Ok(text) => Ok(text),
        Err(AllocError) => Err(Fault::NoMemory),
    }
}

/// What is told after the fault for which the script of this file could not be had, or that of standard input.
///
/// # Errors
///
/// `NoMemory` where memory is refused for it.
pub(crate) fn unread_note<H: AllocGlobal + Files>(
    rt: &H,
    asked: bool,
    file: &Option<String>,
    fault: Fault,
) -> Result<Vec<u8>, Fault>
    ensures { IfOk result (λ note. IsUnreadNote asked (told_name (name_of file.now)) fault note.items) }
{
    match fault {
        Fault::Read if asked => {
            let why = file_fault(rt, file);
            Ok(file_fault_line(rt.alloc(), told_name(file), why)?)
        }
        Fault::TooLong if asked => Ok(file_fault_line(
            rt.alloc(),
            told_name(file),
            FileFault::TooLong,
        )?),
        _ => Ok(Vec::new(rt.alloc())),
    }
}

/// Why a file can't be read, by the kind of the failure when it is tried once more. Of standard input nothing more is known.
fn file_fault<H: Files>(rt: &H, file: &Option<String>) -> FileFault
    ensures { (kind : ErrorKind) × (result ≡ file_fault_of kind) }
{
    match file {
        Some(path) => FileFault::of(failure(rt, path.as_str())),
        None => FileFault::of(ErrorKind::Other),
    }
}

/// The kind of the failure with which a file is opened or read.
fn failure<H: Files>(rt: &H, path: &str) -> ErrorKind {
    match File::open(rt, path) {
        Ok(mut file) => match file.read(&mut [0]) {
            Ok(_) => ErrorKind::Other,
            Err(fault) => fault.kind(),
        },
        Err(fault) => fault.kind(),
    }
}
