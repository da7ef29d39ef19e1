ghost use Rattle.std.specs.Prelude.{◌≡◌, ◌≤◌, ◌++◌, [], length, IfOk, OnOk};
ghost use Rattle.pf_place.specs.Lent.{lent_row};
ghost use Rattle.pf_report.specs.Quanta.{quanta_text, quantum_records, row_records};
ghost use Rattle.pf_text.specs.Page.{table_text};

use pf_desk::rows::row_at;
use pf_desk::snapshot::Snapshot;
use pf_order::pick::Pick;
use pf_place::row_view::RowView;
use pf_text::pieces::{Chain, Pieces, Whole};
use pf_text::table::Table;
use std::alloc::{AllocError, Global};
use std::marker::Model;

/// Adds the record of who sits on a processor in slot t, where somebody does.
fn push_quantum(
    table: &mut Table,
    t: u64,
    processor: u32,
    sitter: Option<Pick>,
) -> Result<(), AllocError>
    requires { table.old.fields ≡ [] }
    ensures text { OnOk result (table.new.text ≡ table.old.text ++ table_text (quantum_records t processor sitter)) }
    ensures whole { OnOk result (table.new.fields ≡ []) }
{
    if let Some(pick) = sitter {
        table.show_number(t)?;
        table.show_number(u64::from(processor))?;
        table.show_number(u64::from(pick.task))?;
        table.show_number(u64::from(pick.sub))?;
        table.end_record()?;
    }
    Ok(())
}

/// Adds the records of slot t, whose row this is.
#[tactic(auto, using(crate::proofs::Lines::records_written, crate::proofs::Lines::sitter_first))]
fn push_row(table: &mut Table, t: u64, processors: u32, row: RowView<'_>) -> Result<(), AllocError>
    requires start { table.old.fields ≡ [] }
    requires row { length (lent_row row) ≡ processors }
    ensures text { OnOk result (table.new.text ≡ table.old.text ++ table_text (row_records t 0 (lent_row row.entry))) }
    ensures whole { OnOk result (table.new.fields ≡ []) }
{
    for processor in 0..processors {
        push_quantum(table, t, processor, row.get(processor))?;
    }
    Ok(())
}

/// The records of the quanta of a range of slots, by slot, then by processor.
#[derive(Drop)]
pub struct QuantumRows<'a> {
    snapshot: &'a Snapshot,
    /// The first slot that is left.
    at: u64,
    /// The slot at which they end.
    to: u64,
}

impl<'a> Model for QuantumRows<'a> {
    ghost use Rattle.std.specs.Prelude.{ℕ, List, ◌≤◌, drop, length, take};
    ghost use Rattle.pf_report.specs.Quanta.{quanta_records};
    ghost use Rattle.pf_text.specs.Page.{table_text};

    ghost Value = { List ℕ };

    ghost view = { λ q. table_text (quanta_records q.at (drop q.at (take q.to q.snapshot.now.rows))) };

    ghost invariant = { λ q. (q.at ≤ q.to) × (q.to ≤ length q.snapshot.now.rows) };
}

impl Pieces for QuantumRows<'_> {
    ghost left = { λ q. q };

    ghost outcome = { λ _. tt };

    #[tactic(auto, using(crate::proofs::Lines::records_written, crate::proofs::Lines::row_first_of))]
    fn next_piece(&mut self, alloc: Global) -> Result<Option<Vec<u8>>, AllocError> {
        let processors = self.snapshot.settings().processors();
        let mut table = Table::new(alloc);
        let mut at = self.at;
        while at < self.to && !table.is_long() {
            push_row(&mut table, at, processors, row_at(self.snapshot, at))?;
            at += 1;
        }
        self.at = at;
        let piece = table.finish()?;
        if piece.is_empty() {
            return Ok(None);
        }
        Ok(Some(piece))
    }
}

/// The quanta of a range of slots as a table, in pieces: the heading, and then the records.
pub type QuantaPieces<'a> = Chain<Whole, QuantumRows<'a>>;

/// The quanta of the slots from `from` on and below `to` as a table, in pieces: a line for each, by slot, then by processor.
///
/// # Errors
///
/// Where memory is refused.
pub fn quanta_pieces(
    alloc: Global,
    snapshot: &Snapshot,
    from: u64,
    to: u64,
) -> Result<QuantaPieces<'_>, AllocError>
    requires order { from ≤ to }
    requires within { to ≤ snapshot.now.state.now }
    ensures { IfOk result (λ pieces. pieces ≡ quanta_text snapshot.now from to) }
{
    let now = snapshot.now();
    prove!(to <= now);
    let mut table = Table::new(alloc);
    table.push_texts(&["slot", "processor", "task", "sub"])?;
    let heading = Whole::new(table.finish()?);
    let rows = QuantumRows {
        snapshot,
        at: from,
        to,
    };
    Ok(Chain::new(heading, rows))
}
