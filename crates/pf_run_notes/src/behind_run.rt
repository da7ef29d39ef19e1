ghost use Rattle.std.specs.Prelude.{◌≡◌, List, length, IfOk};
ghost use Rattle.pf_run.specs.Computed.{run_of};
ghost use Rattle.pf_tally.specs.declared.miss.Miss.{Miss};
ghost use Rattle.pf_run_notes.specs.Late.{AreLate};
ghost use Rattle.pf_run_notes.specs.Notes.{lines_of, lists_text, lists_with, notes_text, notes_with};

use crate::late::{LateTasks, late_tasks};
use crate::made::Made;
use crate::notes::{front, push_denials, push_last, push_late_tasks, push_rest};
use crate::refusals::Refusals;
use pf_desk::snapshot::Snapshot;
use pf_notes::reasons::Reasons;
use pf_vocabulary::names::names::Names;
use std::alloc::{AllocError, Global};

/// How many lines there are.
fn count_lines(refusals: &Refusals, snapshot: &Snapshot, late: &LateTasks) -> u64
    ensures { (misses : List Miss) → AreLate misses late.now.firsts.items late.now.counts → result ≡ lines_of refusals.now snapshot.now misses }
{
    let denied = snapshot.denials().len() as u64;
    let before = refusals.records().saturating_add(denied);
    before.saturating_add(late.firsts.len() as u64)
}

/// The lists of a run with these reasons and these late tasks; with hints, where they are asked for.
fn lists_with(
    alloc: Global,
    file: &[u8],
    hints: bool,
    names: &Names,
    made: &Made,
    refusals: &Refusals,
    snapshot: &Snapshot,
    reasons: &Reasons<'_>,
    late: &LateTasks,
) -> Result<Vec<u8>, AllocError>
    requires { reasons.now ≡ snapshot.now }
    ensures { (misses : List Miss) → AreLate misses late.now.firsts.items late.now.counts →
        IfOk result (λ text. text.items ≡ lists_with file.now hints names.now made.now refusals.now snapshot.now
        (run_of snapshot.now.state.plan snapshot.now.state.now) misses) }
{
    let denials = snapshot.denials();
    let scenario = snapshot.scenario();
    let most = refusals.most();
    let records = refusals.records();
    let before = records.saturating_add(denials.len() as u64);
    let lines = before.saturating_add(late.firsts.len() as u64);
    let shown = front(denials, most.saturating_sub(records));
    let firsts = front(&late.firsts, most.saturating_sub(before));
    let mut text = Vec::from_slice(alloc, refusals.lines())?;
    push_denials(
        alloc, &mut text, file, hints, names, made, scenario, reasons, shown,
    )?;
    push_late_tasks(&mut text, file, names, made, scenario, &late.counts, firsts)?;
    push_rest(&mut text, most, lines)?;
    Ok(text)
}

/// The notes of a run with these reasons and these late tasks, which missed so many windows.
fn notes_with(
    alloc: Global,
    file: &[u8],
    names: &Names,
    made: &Made,
    refusals: &Refusals,
    snapshot: &Snapshot,
    reasons: &Reasons<'_>,
    late: &LateTasks,
    missed: u64,
) -> Result<Vec<u8>, AllocError>
    requires { reasons.now ≡ snapshot.now }
    ensures { (misses : List Miss) → AreLate misses late.now.firsts.items late.now.counts → missed ≡ length misses →
        IfOk result (λ text. text.items ≡ notes_with file.now names.now made.now refusals.now snapshot.now
        (run_of snapshot.now.state.plan snapshot.now.state.now) misses) }
{
    let denied = snapshot.denials().len() as u64;
    let lines = count_lines(refusals, snapshot, late);
    let mut text = lists_with(
        alloc, file, true, names, made, refusals, snapshot, reasons, late,
    )?;
    push_last(&mut text, file, lines, refusals.commands(), denied, missed)?;
    Ok(text)
}

/// What is listed after a run, with hints, where they are asked for: a line for each of the first refused records, denied events and
/// tasks that missed windows, and how many lines more there are. `refusals` and `made` were kept while the script of this name was
/// carried out, and the snapshot was taken after it.
///
/// # Errors
///
/// Where memory is refused.
pub fn lists(
    alloc: Global,
    file: &[u8],
    hints: bool,
    names: &Names,
    made: &Made,
    refusals: &Refusals,
    snapshot: &Snapshot,
) -> Result<Vec<u8>, AllocError>
    ensures { IfOk result (λ text. text.items ≡ lists_text file.now hints names.now made.now refusals.now snapshot.now) }
{
    let reasons = Reasons::of(alloc, snapshot)?;
    let misses = snapshot.misses()?;
    let late = late_tasks(alloc, &misses)?;
    lists_with(
        alloc, file, hints, names, made, refusals, snapshot, &reasons, &late,
    )
}

/// The notes after a run, with hints: a line for each of the first refused records, denied events and tasks that missed windows, how
/// many lines more there are, and how many commands were refused, events denied and windows missed; nothing where there is none.
/// `refusals` and `made` were kept while the script of this name was carried out, and the snapshot was taken after it.
///
/// # Errors
///
/// Where memory is refused.
pub fn notes(
    alloc: Global,
    file: &[u8],
    names: &Names,
    made: &Made,
    refusals: &Refusals,
    snapshot: &Snapshot,
) -> Result<Vec<u8>, AllocError>
    ensures { IfOk result (λ text. text.items ≡ notes_text file.now names.now made.now refusals.now snapshot.now) }
{
    let reasons = Reasons::of(alloc, snapshot)?;
    let misses = snapshot.misses()?;
    let late = late_tasks(alloc, &misses)?;
    notes_with(
        alloc,
        file,
        names,
        made,
        refusals,
        snapshot,
        &reasons,
        &late,
        misses.len() as u64,
    )
}
