ghost use Rattle.std.specs.Prelude.{◌≡◌, ◌∷◌, [], map, true, false, IfOk};
ghost use Rattle.pf_text.specs.Page.{table_text};
ghost use Rattle.pf_diff.specs.Changes.{changes_of};
ghost use Rattle.pf_diff.specs.Diff.{change_record, schedule_diff, lags_diff, misses_diff, denials_diff, diff_text_of};

use crate::cell::Cell;
use crate::cells::{seen_denials, seen_lags, seen_misses};
use crate::change_rows::ChangeRows;
use crate::changes::changes;
use crate::slots::SlotPieces;
use pf_desk::snapshot::Snapshot;
use pf_text::pieces::{Chain, Whole, gathered};
use pf_text::records::RecordPieces;
use pf_text::table::Table;
use std::alloc::{AllocError, Global};

/// A table after its title and its heading.
type Titled<A> = Chain<Whole, A>;

/// A table of changes, in pieces.
type ChangePieces = RecordPieces<ChangeRows>;

/// What differs between two snapshots, in pieces: the schedule, the lags, the misses and the denials.
pub type DiffPieces<'a> = Chain<
    Titled<SlotPieces<'a>>,
    Chain<Titled<ChangePieces>, Chain<Titled<ChangePieces>, Titled<ChangePieces>>>,
>;

/// A record of these texts. A title and a heading have different lengths, which records of a table have not: each is a table
/// by itself.
fn line_text(alloc: Global, texts: &[&str]) -> Result<Vec<u8>, AllocError>
    ensures { IfOk result (λ line. line.items ≡ table_text (map (λ text. text.now) texts.now ∷ [])) }
{
    let mut table = Table::new(alloc);
    table.push_texts(texts)?;
    table.finish()
}

/// The title of a table and its heading, a line each.
pub(crate) fn head_text(alloc: Global, title: &str, heading: &[&str]) -> Result<Vec<u8>, AllocError>
    ensures { IfOk result (λ head. head.items ≡ table_text ((title.now ∷ []) ∷ map (λ text. text.now) heading.now ∷ [])) }
{
    let mut text = line_text(alloc, &[title])?;
    text.extend_from_slice(&line_text(alloc, heading)?)?;
    Ok(text)
}

/// The same, in pieces.
fn head(alloc: Global, title: &str, heading: &[&str]) -> Result<Whole, AllocError>
    ensures { IfOk result (λ head. head ≡ table_text ((title.now ∷ []) ∷ map (λ text. text.now) heading.now ∷ [])) }
{
    Ok(Whole::new(head_text(alloc, title, heading)?))
}

/// What differs between two tables whose keys are two numbers, or else one.
fn change_pieces(
    alloc: Global,
    before: &[Cell],
    after: &[Cell],
    paired: bool,
) -> Result<ChangePieces, AllocError>
    ensures { IfOk result (λ pieces. pieces ≡ table_text (map (change_record paired) (changes_of before.now after.now))) }
{
    let rows = ChangeRows::new(changes(alloc, before, after)?, paired);
    Ok(RecordPieces::new(rows))
}

/// What differs in the schedule.
fn schedule_pieces<'a>(
    alloc: Global,
    before: &'a Snapshot,
    after: &'a Snapshot,
) -> Result<Titled<SlotPieces<'a>>, AllocError>
    ensures { IfOk result (λ pieces. pieces ≡ schedule_diff before.now after.now) }
{
    let head = head(alloc, "schedule", &["slot", "processor", "before", "after"])?;
    Ok(Chain::new(head, SlotPieces::new(before, after)))
}

/// What differs in the lags.
fn lag_pieces(
    alloc: Global,
    before: &Snapshot,
    after: &Snapshot,
) -> Result<Titled<ChangePieces>, AllocError>
    ensures { IfOk result (λ pieces. pieces ≡ lags_diff before.now after.now) }
{
    let first = seen_lags(alloc, before)?;
    let second = seen_lags(alloc, after)?;
    let head = head(alloc, "lags", &["task", "before", "after"])?;
    Ok(Chain::new(head, change_pieces(alloc, &first, &second, false)?))
}

/// What differs in the missed windows.
fn miss_pieces(
    alloc: Global,
    before: &Snapshot,
    after: &Snapshot,
) -> Result<Titled<ChangePieces>, AllocError>
    ensures { IfOk result (λ pieces. pieces ≡ misses_diff before.now after.now) }
{
    let first = seen_misses(alloc, before)?;
    let second = seen_misses(alloc, after)?;
    let head = head(alloc, "misses", &["task", "sub", "before", "after"])?;
    Ok(Chain::new(head, change_pieces(alloc, &first, &second, true)?))
}

/// What differs in the denials.
fn denial_pieces(
    alloc: Global,
    before: &Snapshot,
    after: &Snapshot,
) -> Result<Titled<ChangePieces>, AllocError>
    ensures { IfOk result (λ pieces. pieces ≡ denials_diff before.now after.now) }
{
    let first = seen_denials(alloc, before)?;
    let second = seen_denials(alloc, after)?;
    let head = head(alloc, "denials", &["event", "slot", "before", "after"])?;
    Ok(Chain::new(head, change_pieces(alloc, &first, &second, true)?))
}

/// What differs between two snapshots, in pieces: four tables, each after a line with its name, of what differs alone. They
/// compare who sits on each processor in the slots and on the processors that both have; the lags of the tasks inside, by
/// task; the missed windows, by task and subtask, with the slot in which the subtask ran, or that it never did; the denials,
/// by event and slot, with the reason. What is in one alone has an empty field for the other. What differs in all but the
/// schedule is in memory until it is written.
///
/// # Errors
///
/// Where memory is refused.
pub fn diff_pieces<'a>(
    alloc: Global,
    before: &'a Snapshot,
    after: &'a Snapshot,
) -> Result<DiffPieces<'a>, AllocError>
    ensures { IfOk result (λ pieces. pieces ≡ diff_text_of before.now after.now) }
{
    let schedule = schedule_pieces(alloc, before, after)?;
    let lags = lag_pieces(alloc, before, after)?;
    let misses = miss_pieces(alloc, before, after)?;
    let denials = denial_pieces(alloc, before, after)?;
    Ok(Chain::new(schedule, Chain::new(lags, Chain::new(misses, denials))))
}

/// What differs between two snapshots, in whole.
///
/// # Errors
///
/// Where memory is refused.
pub fn diff_text(alloc: Global, before: &Snapshot, after: &Snapshot) -> Result<Vec<u8>, AllocError>
    ensures { IfOk result (λ text. text.items ≡ diff_text_of before.now after.now) }
{
    gathered(alloc, diff_pieces(alloc, before, after)?)
}
