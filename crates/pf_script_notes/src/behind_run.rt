ghost use Rattle.std.specs.Prelude.{false, true, ◌≡◌, Some, IfOk, IfErr};
ghost use Rattle.std.specs.Option.{option_map};
ghost use Rattle.pf_script_run.specs.Carried.{IsOf, Stops};
ghost use Rattle.pf_script_results.specs.Recount.{recounted};
ghost use Rattle.pf_run_notes.specs.Notes.{notes_text};
ghost use Rattle.pf_script.specs.Told.{told};
ghost use Rattle.pf_script_notes.specs.Behind.{NotesMade, RunNotes, most_lines};

use pf_desk::desk::Desk;
use pf_desk::snapshot::Snapshot;
use pf_plain_script::origin::Origin;
use pf_plain_script::plain::{PlainScript, plain_script};
use pf_run_notes::behind_run::notes;
use pf_script_results::recount::Recount;
use pf_script_results::recounting::recount;
use pf_script_run::carry::carry;
use pf_vocabulary::fault::fault::Fault;
use pf_vocabulary::names::names::Names;
use std::alloc::{AllocError, Global};

// Lines are told of so many refusals, denials and tasks with missed windows.
const MOST_LINES: u64 = 20;

/// The notes after a run of the script of this file, of any version: the script is carried out for them.
///
/// # Errors
///
/// `BadRecord` at the first record that is none of the script's, and `NoMemory` where memory is refused.
pub fn script_notes(alloc: Global, file: &[u8], script: &[u8]) -> Result<Vec<u8>, Fault>
    ensures { NotesMade file.now script.now result }
{
    match plain_script(alloc, script) {
        Ok(Some(plain)) => plain_notes(alloc, file, &plain),
        Ok(None) => run_notes(alloc, file, script, None, &Names::new(alloc)),
        Err(AllocError) => Err(Fault::NoMemory),
    }
}

/// Those of a plan, to which this one belongs.
fn plain_notes(alloc: Global, file: &[u8], plain: &PlainScript) -> Result<Vec<u8>, Fault>
    ensures made { IfOk result (λ text. RunNotes file.now (Some plain.now.origins.items) plain.now.titles.names plain.now.text.items text.items) }
    ensures stopped { IfErr result (Stops (told plain.now.text.items).rest.fault) }
{
    let origins = plain.origins.as_slice();
    run_notes(alloc, file, &plain.text, Some(origins), &plain.titles.names)
}

/// Those of a script of version 1 or 2. Where it belongs to a plan, `origins` are the records there that its own come
/// from, and the names those of its tasks.
fn run_notes(
    alloc: Global,
    file: &[u8],
    script: &[u8],
    origins: Option<&[Origin]>,
    names: &Names,
) -> Result<Vec<u8>, Fault>
    ensures made { IfOk result (λ text. RunNotes file.now (option_map (λ o. o.now) origins.entry) names.now script.now text.items) }
    ensures stopped { IfErr result (Stops (told script.now).rest.fault) }
{
    match carry(alloc, script) {
        Ok(desk) => match desk_notes(alloc, file, script, origins, names, &desk) {
            Ok(text) => Ok(text),
            Err(AllocError) => Err(Fault::NoMemory),
        },
        Err(fault) => Err(fault),
    }
}

/// The notes after a run of the script of this file, of version 1 or 2, by the desk that carried it out. Where it belongs to a
/// plan, `origins` are the records there that its own come from, and the names those of its tasks.
///
/// # Errors
///
/// Where memory is refused.
pub fn desk_notes(
    alloc: Global,
    file: &[u8],
    script: &[u8],
    origins: Option<&[Origin]>,
    names: &Names,
    desk: &Desk,
) -> Result<Vec<u8>, AllocError>
    requires { IsOf (told script.now) desk.now }
    ensures { IfOk result (λ text. RunNotes file.now (option_map (λ o. o.now) origins.entry) names.now script.now text.items) }
{
    let recount = recount_of(alloc, file, script, origins, names, desk)?;
    let snapshot = desk.snapshot()?;
    let text = recounted_notes(alloc, file, names, &recount, &snapshot)?;
    Ok(text)
}

/// The same of what the records came to, and of what the desk shows.
fn recounted_notes(
    alloc: Global,
    file: &[u8],
    names: &Names,
    recount: &Recount,
    snapshot: &Snapshot,
) -> Result<Vec<u8>, AllocError>
    ensures { IfOk result (λ text. text.items ≡ notes_text file.now names.now recount.now.made recount.now.refusals snapshot.now) }
{
    notes(
        alloc,
        file,
        names,
        &recount.made,
        &recount.refusals,
        snapshot,
    )
}

/// What the script's records came to.
fn recount_of(
    alloc: Global,
    file: &[u8],
    script: &[u8],
    origins: Option<&[Origin]>,
    names: &Names,
    desk: &Desk,
) -> Result<Recount, AllocError>
    requires { IsOf (told script.now) desk.now }
    ensures { IfOk result (λ r. Some r ≡ recounted file.now true names.now (option_map (λ o. o.now) origins.entry) most_lines false script.now) }
{
    let found = recount(
        alloc, file, true, names, script, origins, desk, MOST_LINES, false,
    )?;
    match found {
        Some(recount) => Ok(recount),
        None => unreachable!(),
    }
}
