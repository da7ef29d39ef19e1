ghost use Rattle.std.specs.Prelude.{false, ◌≡◌, ◌++◌, Some, IfOk, IfErr, OnOk};
ghost use Rattle.std.specs.Option.{option_map};
ghost use Rattle.pf_script_run.specs.Carried.{IsOf, Stops};
ghost use Rattle.pf_vocabulary.specs.Fault.Faults.{IsUnwritten};
ghost use Rattle.pf_script_results.specs.Recount.{recounted};
ghost use Rattle.pf_script.specs.Told.{told};
ghost use Rattle.pf_check_run.specs.Answers.{Carries, IsStoppedWith, counted_text, lists_of, most_lines, status_of_lines, totals_line, totals_of};

use pf_desk::desk::Desk;
use pf_desk::snapshot::Snapshot;
use pf_plain_script::origin::Origin;
use pf_plain_script::plain::PlainScript;
use pf_run_notes::behind_run::lists;
use pf_script_results::recount::Recount;
use pf_script_results::recounting::recount;
use pf_script_run::carry::carry;
use pf_stream::reading::LONGEST_SCRIPT;
use pf_text::numbers::push_number;
use pf_vocabulary::fault::answer::Answer;
use pf_vocabulary::fault::ending::Ending;
use pf_vocabulary::fault::fault::Fault;
use pf_vocabulary::fault::status::Status;
use pf_vocabulary::names::names::Names;
use std::alloc::{AllocError, Global};

/// Carries a script of version 1 or 2 of this file out, which has so many records, and tells what was refused, denied and missed,
/// with hints, where they are asked for.
/// Where it belongs to a plan, `origins` are the records there that its own come from, and the names those of its
/// tasks.
///
/// # Errors
///
/// `BadRecord` at the first record that is none of the script's, and `NoMemory` where memory is refused.
pub(crate) fn carried(
    alloc: Global,
    file: &[u8],
    hints: bool,
    script: &[u8],
    origins: Option<&[Origin]>,
    names: &Names,
    records: u64,
) -> Result<Answer, Fault>
    ensures made { IfOk result (Carries file.now hints (option_map (λ o. o.now) origins.entry) names.now script.now records) }
    ensures stopped { IfErr result (Stops (told script.now).rest.fault) }
    ensures unwritten { IfErr result IsUnwritten }
{
    match carry(alloc, script) {
        Ok(desk) => match desk_answer(alloc, file, hints, script, origins, names, records, &desk) {
            Ok(answer) => Ok(answer),
            Err(AllocError) => Err(Fault::NoMemory),
        },
        Err(fault) => Err(fault),
    }
}

/// The same of the script of version 2 that belongs to a plan with so many records.
///
/// # Errors
///
/// Those, and `TooLong` where the script is longer than what is carried out.
pub(crate) fn plan_carried(
    alloc: Global,
    file: &[u8],
    hints: bool,
    plain: &PlainScript,
    records: u64,
) -> Result<Answer, Fault>
    ensures made { IfOk result (Carries file.now hints (Some plain.now.origins.items) plain.now.titles.names plain.now.text.items records) }
    ensures stopped { IfErr result (IsStoppedWith plain.now.text.items) }
    ensures unwritten { IfErr result IsUnwritten }
{
    if plain.text.len() > LONGEST_SCRIPT {
        return Err(Fault::TooLong);
    }
    let origins = plain.origins.as_slice();
    carried(
        alloc,
        file,
        hints,
        &plain.text,
        Some(origins),
        &plain.titles.names,
        records,
    )
}

/// The same of the desk on which the script was carried out.
fn desk_answer(
    alloc: Global,
    file: &[u8],
    hints: bool,
    script: &[u8],
    origins: Option<&[Origin]>,
    names: &Names,
    records: u64,
    desk: &Desk,
) -> Result<Answer, AllocError>
    requires { IsOf (told script.now) desk.now }
    ensures { IfOk result (Carries file.now hints (option_map (λ o. o.now) origins.entry) names.now script.now records) }
{
    let recount = recount_of(alloc, file, hints, script, origins, names, desk)?;
    let snapshot = desk.snapshot()?;
    let mut text = lists_of(alloc, file, hints, names, &recount, &snapshot)?;
    let status = status_of_lines(&text);
    push_totals(&mut text, records, &recount, &snapshot)?;
    let ending = Ending::quiet(alloc, status);
    Ok(Answer { text, ending })
}

/// What the script's records came to.
fn recount_of(
    alloc: Global,
    file: &[u8],
    hints: bool,
    script: &[u8],
    origins: Option<&[Origin]>,
    names: &Names,
    desk: &Desk,
) -> Result<Recount, AllocError>
    requires { IsOf (told script.now) desk.now }
    ensures { IfOk result (λ r. Some r ≡ recounted file.now hints names.now (option_map (λ o. o.now) origins.entry) most_lines false script.now) }
{
    let found = recount(
        alloc,
        file,
        hints,
        names,
        script,
        origins,
        desk,
        u64::MAX,
        false,
    )?;
    match found {
        Some(recount) => Ok(recount),
        None => unreachable!(),
    }
}

/// The lines of what was refused, denied and missed.
fn lists_of(
    alloc: Global,
    file: &[u8],
    hints: bool,
    names: &Names,
    recount: &Recount,
    snapshot: &Snapshot,
) -> Result<Vec<u8>, AllocError>
    ensures { IfOk result (λ text. text.items ≡ lists_of file.now hints names.now recount.now snapshot.now) }
{
    lists(
        alloc,
        file,
        hints,
        names,
        &recount.made,
        &recount.refusals,
        snapshot,
    )
}

/// The status after these lines.
fn status_of_lines(lines: &[u8]) -> Status
    ensures { result ≡ status_of_lines lines.now }
{
    match lines {
        [] => Status::Done,
        _ => Status::BadScript,
    }
}

/// Appends the last line.
fn push_totals(
    text: &mut Vec<u8>,
    records: u64,
    recount: &Recount,
    snapshot: &Snapshot,
) -> Result<(), AllocError>
    ensures { OnOk result (text.new.items ≡ text.old.items ++ totals_of records recount.now snapshot.now) }
{
    let refused = recount.refusals.commands();
    let denied = snapshot.denials().len() as u64;
    let misses = snapshot.misses()?;
    push_totals_line(text, records, refused, denied, misses.len() as u64)
}

/// Appends that line by its numbers.
fn push_totals_line(
    text: &mut Vec<u8>,
    records: u64,
    refused: u64,
    denied: u64,
    missed: u64,
) -> Result<(), AllocError>
    ensures { OnOk result (text.new.items ≡ text.old.items ++ totals_line records refused denied missed) }
{
    push_counted(text, records, b" records, 0 faults, ")?;
    push_counted(text, refused, b" refused, ")?;
    push_counted(text, denied, b" denied, ")?;
    push_counted(text, missed, b" missed\n")?;
    Ok(())
}

/// Appends a number, and what there are so many of.
#[tactic(auto, unfolding(crate::specs::Answers::counted_text))]
fn push_counted(text: &mut Vec<u8>, count: u64, words: &[u8]) -> Result<(), AllocError>
    ensures { OnOk result (text.new.items ≡ text.old.items ++ counted_text count words.now) }
{
    push_number(text, count)?;
    text.extend_from_slice(words)
}
