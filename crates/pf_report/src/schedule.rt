ghost use Rattle.std.specs.Prelude.{◌≡◌, ◌∷◌, [], length, map, IfOk, OnOk};
ghost use Rattle.std.specs.Fmt.{decimal};
ghost use Rattle.pf_place.specs.Lent.{lent_row};
ghost use Rattle.pf_text.specs.Page.{with_record};
ghost use Rattle.pf_report.specs.Tables.{schedule_heading, schedule_text, sitter_field};

use pf_desk::rows::{row_at, row_count};
use pf_desk::snapshot::Snapshot;
use pf_order::pick::Pick;
use pf_place::row_view::RowView;
use pf_text::fields::Fields;
use pf_text::pair_text::PairText;
use pf_text::pieces::{Chain, Whole, gathered};
use pf_text::records::{RecordPieces, Records};
use pf_text::table::Table;
use std::alloc::{AllocError, Global};
use std::marker::Model;

/// Adds the heading: a column for the slot and for each processor.
pub(crate) fn push_heading(table: &mut Table, processors: u32) -> Result<(), AllocError>
    requires { table.old.fields ≡ [] }
    ensures { OnOk result (table.new ≡ with_record table.old (schedule_heading processors)) }
{
    table.show("slot")?;
    for processor in 0..processors {
        table.show(format_args!("p{processor}"))?;
    }
    table.end_record()
}

/// Writes who sits on a processor.
#[inline(always)]
fn write_sitter(text: &mut PairText, sitter: Option<Pick>)
    ensures { text.new ≡ sitter_field sitter }
{
    match sitter {
        Some(pick) => text.set(u64::from(pick.task), u64::from(pick.sub)),
        None => text.clear(),
    }
}

/// The fields of a slot's record: the slot, and who sits on each processor.
#[derive(Drop)]
struct SlotFields<'a> {
    slot: u64,
    processors: u32,
    row: RowView<'a>,
}

impl<'a> Model for SlotFields<'a> {
    ghost use Rattle.std.specs.Prelude.{◌≡◌, ◌∷◌, ℕ, List, length, map};
    ghost use Rattle.std.specs.Fmt.{decimal};
    ghost use Rattle.pf_place.specs.Lent.{lent_row};
    ghost use Rattle.pf_report.specs.Tables.{sitter_field};

    ghost Value = { List (List ℕ) };

    ghost view = { λ s. decimal s.slot ∷ map sitter_field (lent_row s.row) };

    ghost invariant = { λ s. length (lent_row s.row) ≡ s.processors };
}

impl Fields for SlotFields<'_> {
    ghost texts = { λ s. s };

    fn count(&self) -> usize {
        self.processors as usize + 1
    }

    fn write(&self, at: usize, text: &mut PairText) {
        let processors = self.processors;
        prove!(at <= processors as usize);
        if at == 0 {
            return text.set_one(self.slot);
        }
        write_sitter(text, self.row.get((at - 1) as u32));
    }
}

/// Adds the record of slot t, whose row this is.
pub(crate) fn push_row(
    table: &mut Table,
    t: u64,
    processors: u32,
    row: RowView<'_>,
) -> Result<(), AllocError>
    requires start { table.old.fields ≡ [] }
    requires row { length (lent_row row) ≡ processors }
    ensures { OnOk result (table.new ≡ with_record table.old (decimal t ∷ map sitter_field (lent_row row.entry))) }
{
    let slot = t;
    table.push_fields(&SlotFields {
        slot,
        processors,
        row,
    })
}

/// The rows of a schedule: those of the slots below now, in order.
#[derive(Drop)]
pub struct ScheduleRows<'a> {
    snapshot: &'a Snapshot,
}

impl<'a> Model for ScheduleRows<'a> {
    ghost use Rattle.pf_desk.specs.Desk.{Seen};

    ghost Value = { Seen };

    ghost view = { λ s. s.snapshot.now };
}

impl<'a> ScheduleRows<'a> {
    /// Those that a snapshot shows.
    pub fn of(snapshot: &'a Snapshot) -> Self
        ensures { result ≡ snapshot.now }
    {
        ScheduleRows { snapshot }
    }

    /// What shows them.
    pub fn snapshot(&self) -> &'a Snapshot
        ensures { result.now ≡ self.now }
    {
        self.snapshot
    }
}

impl Records for ScheduleRows<'_> {
    ghost use Rattle.std.specs.Prelude.{length, drop};
    ghost use Rattle.pf_report.specs.Tables.{schedule_records};

    ghost count = { λ s. length s.rows };

    ghost rest = { λ s t. schedule_records t (drop t s.rows) };

    fn count(&self) -> u64 {
        row_count(self.snapshot)
    }

    fn push_record(&self, table: &mut Table, at: u64) -> Result<(), AllocError> {
        let snapshot = self.snapshot();
        let processors = snapshot.settings().processors();
        push_row(table, at, processors, row_at(snapshot, at))
    }
}

/// The schedule as a table, in pieces: the heading, and then the rows.
pub type SchedulePieces<'a> = Chain<Whole, RecordPieces<ScheduleRows<'a>>>;

/// The schedule as a table, in pieces: a line for each slot below now, a column for each processor.
///
/// # Errors
///
/// Where memory is refused.
pub fn schedule_pieces(alloc: Global, snapshot: &Snapshot) -> Result<SchedulePieces<'_>, AllocError>
    ensures { IfOk result (λ pieces. pieces ≡ schedule_text snapshot.now) }
{
    let mut table = Table::new(alloc);
    push_heading(&mut table, snapshot.settings().processors())?;
    let heading = Whole::new(table.finish()?);
    Ok(Chain::new(heading, RecordPieces::new(ScheduleRows::of(snapshot))))
}

/// The schedule as a table, in whole.
///
/// # Errors
///
/// Where memory is refused.
pub fn schedule_csv(alloc: Global, snapshot: &Snapshot) -> Result<Vec<u8>, AllocError>
    ensures { IfOk result (λ text. text.items ≡ schedule_text snapshot.now) }
{
    gathered(alloc, schedule_pieces(alloc, snapshot)?)
}
