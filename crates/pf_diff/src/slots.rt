ghost use Rattle.std.specs.Prelude.{◌≡◌, ◌<◌, [], length, min, OnOk};
ghost use Rattle.pf_place.specs.Lent.{lent_row};
ghost use Rattle.pf_text.specs.Page.{with_field};
ghost use Rattle.pf_report.specs.Tables.{sitter_field};
ghost use Rattle.pf_diff.specs.Diff.{same_sitter, sitter_changes, row_changes};
ghost use Rattle.pf_diff.specs.Written.{with_records, AddsSlot};

use pf_desk::rows::{row_at, row_count};
use pf_desk::snapshot::Snapshot;
use pf_order::pick::Pick;
use pf_place::row_view::RowView;
use pf_text::pieces::Pieces;
use pf_text::table::Table;
use std::alloc::{AllocError, Global};
use std::marker::Model;

/// Whether the same sits on a processor, or nobody does.
pub(crate) fn is_same_sitter(before: Option<Pick>, after: Option<Pick>) -> bool
    ensures { result ≡ same_sitter before after }
{
    match (before, after) {
        (None, None) => true,
        (Some(before), Some(after)) => before.task == after.task && before.sub == after.sub,
        _ => false,
    }
}

/// Adds the field of who sits on a processor.
fn show_sitter(table: &mut Table, sitter: Option<Pick>) -> Result<(), AllocError>
    ensures { OnOk result (table.new ≡ with_field table.old (sitter_field sitter)) }
{
    match sitter {
        Some(pick) => table.show_pair(u64::from(pick.task), u64::from(pick.sub)),
        None => table.show_nothing(),
    }
}

/// Adds the record of a processor in slot t, where who sits on it differs.
fn push_sitters(
    table: &mut Table,
    t: u64,
    processor: u32,
    before: Option<Pick>,
    after: Option<Pick>,
) -> Result<(), AllocError>
    requires { table.old.fields ≡ [] }
    ensures { OnOk result (table.new ≡ with_records table.old (sitter_changes t processor before after)) }
{
    if is_same_sitter(before, after) {
        return Ok(());
    }
    table.show_number(t)?;
    table.show_number(u64::from(processor))?;
    show_sitter(table, before)?;
    show_sitter(table, after)?;
    table.end_record()
}

/// Adds the records of the processors of slot t on which who sits differs, of so many that both rows have.
fn push_slot(
    table: &mut Table,
    t: u64,
    processors: u32,
    before: RowView<'_>,
    after: RowView<'_>,
) -> Result<(), AllocError>
    requires start { table.old.fields ≡ [] }
    requires both { processors ≡ min (length (lent_row before)) (length (lent_row after)) }
    ensures { OnOk result (table.new ≡ with_records table.old (row_changes t 0 (lent_row before.entry) (lent_row after.entry))) }
{
    for processor in 0..processors {
        push_sitters(
            table,
            t,
            processor,
            before.get(processor),
            after.get(processor),
        )?;
    }
    Ok(())
}

/// What differs between two schedules: the records of the processors on which another sits, slot by slot, as far as both
/// go. Each piece has as many slots as make it long.
#[derive(Drop)]
pub struct SlotPieces<'a> {
    before: &'a Snapshot,
    after: &'a Snapshot,
    /// How many slots were gone through.
    at: u64,
}

impl<'a> Model for SlotPieces<'a> {
    ghost use Rattle.std.specs.Prelude.{ℕ, List, ◌≤◌, length, drop};
    ghost use Rattle.pf_text.specs.Page.{table_text};
    ghost use Rattle.pf_diff.specs.Diff.{slot_changes};

    ghost Value = { List ℕ };

    ghost view = { λ p. table_text (slot_changes p.at (drop p.at p.before.now.rows) (drop p.at p.after.now.rows)) };

    ghost invariant = { λ p. (p.at ≤ length p.before.now.rows) × (p.at ≤ length p.after.now.rows) };
}

impl<'a> SlotPieces<'a> {
    ghost use Rattle.std.specs.Prelude.{◌≡◌};
    ghost use Rattle.pf_text.specs.Page.{table_text};
    ghost use Rattle.pf_diff.specs.Diff.{slot_changes};

    /// What differs in all slots.
    pub(crate) fn new(before: &'a Snapshot, after: &'a Snapshot) -> Self
        ensures { result ≡ table_text (slot_changes 0 before.now.rows after.now.rows) }
    {
        SlotPieces {
            before,
            after,
            at: 0,
        }
    }
}

/// Adds what differs in slot t.
fn push_seen(
    table: &mut Table,
    before: &Snapshot,
    after: &Snapshot,
    t: u64,
) -> Result<(), AllocError>
    requires start { table.old.fields ≡ [] }
    requires first { t < length before.now.rows }
    requires second { t < length after.now.rows }
    ensures { OnOk result (AddsSlot t before.now.rows after.now.rows table.old table.new) }
{
    let processors = before
        .settings()
        .processors()
        .min(after.settings().processors());
    push_slot(table, t, processors, row_at(before, t), row_at(after, t))
}

impl Pieces for SlotPieces<'_> {
    ghost left = { λ p. p };

    ghost outcome = { λ _. tt };

    fn next_piece(&mut self, alloc: Global) -> Result<Option<Vec<u8>>, AllocError> {
        let count = row_count(self.before).min(row_count(self.after));
        let mut table = Table::new(alloc);
        let mut at = self.at;
        while at < count && !table.is_long() {
            push_seen(&mut table, self.before, self.after, at)?;
            at += 1;
        }
        self.at = at;
        let piece = table.finish()?;
        if piece.is_empty() {
            return Ok(None);
        }
        Ok(Some(piece))
    }
}
