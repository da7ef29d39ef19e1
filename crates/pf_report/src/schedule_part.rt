ghost use Rattle.std.specs.Prelude.{◌≡◌, ◌≤◌, IfOk};
ghost use Rattle.pf_report.specs.Part.{schedule_part_text};

use crate::schedule::{push_heading, push_row};
use pf_desk::rows::row_at;
use pf_desk::snapshot::Snapshot;
use pf_text::pieces::{Chain, Whole};
use pf_text::records::{RecordPieces, Records};
use pf_text::table::Table;
use std::alloc::{AllocError, Global};
use std::marker::Model;

/// The rows of a part of a schedule: those of the slots of a range, in order.
#[derive(Drop)]
pub struct PartRows<'a> {
    snapshot: &'a Snapshot,
    /// The first slot.
    from: u64,
    /// The slot at which they end.
    to: u64,
}

impl<'a> Model for PartRows<'a> {
    ghost use Rattle.std.specs.Prelude.{◌≤◌, length};
    ghost use Rattle.pf_report.specs.Part.{Part};

    ghost Value = { Part };

    ghost view = { λ p. record { seen = p.snapshot.now; from = p.from; to = p.to } };

    ghost invariant = { λ p. (p.from ≤ p.to) × (p.to ≤ length p.snapshot.now.rows) };
}

impl Records for PartRows<'_> {
    ghost use Rattle.std.specs.Prelude.{◌-◌};
    ghost use Rattle.pf_report.specs.Part.{part_records};

    ghost count = { λ p. p.to - p.from };

    ghost rest = { part_records };

    fn count(&self) -> u64 {
        self.to - self.from
    }

    fn push_record(&self, table: &mut Table, at: u64) -> Result<(), AllocError> {
        let (from, to) = (self.from, self.to);
        prove!(at < to - from);
        let slot = from + at;
        let processors = self.snapshot.settings().processors();
        push_row(table, slot, processors, row_at(self.snapshot, slot))
    }
}

/// A part of the schedule as a table, in pieces: the heading, and then the rows.
pub type PartPieces<'a> = Chain<Whole, RecordPieces<PartRows<'a>>>;

/// The schedule of the slots from `from` on and below `to` as a table, in pieces: a line for each of these slots, a column
/// for each processor.
///
/// # Errors
///
/// Where memory is refused.
pub fn schedule_part_pieces(
    alloc: Global,
    snapshot: &Snapshot,
    from: u64,
    to: u64,
) -> Result<PartPieces<'_>, AllocError>
    requires order { from ≤ to }
    requires within { to ≤ snapshot.now.state.now }
    ensures { IfOk result (λ pieces. pieces ≡ schedule_part_text snapshot.now from to) }
{
    let now = snapshot.now();
    prove!(to <= now);
    let mut table = Table::new(alloc);
    push_heading(&mut table, snapshot.settings().processors())?;
    let heading = Whole::new(table.finish()?);
    let rows = PartRows { snapshot, from, to };
    Ok(Chain::new(heading, RecordPieces::new(rows)))
}
