ghost use Rattle.std.specs.Prelude.{◌≡◌, [], IfOk, OnOk};
ghost use Rattle.pf_drill.specs.Taken.{taken_record, taken_text_of};
ghost use Rattle.pf_text.specs.Page.{with_record};

use pf_board::quantum::Quantum;
use pf_text::pieces::{Chain, Whole};
use pf_text::records::{RecordPieces, Records};
use pf_text::table::Table;
use std::alloc::{AllocError, Global};
use std::marker::Model;

/// Adds the record of a quantum.
fn push_quantum(table: &mut Table, quantum: Quantum) -> Result<(), AllocError>
    requires { table.old.fields ≡ [] }
    ensures { OnOk result (table.new ≡ with_record table.old (taken_record quantum)) }
{
    table.show_number(quantum.slot)?;
    table.show_number(u64::from(quantum.processor))?;
    table.show_number(u64::from(quantum.task))?;
    table.show_number(u64::from(quantum.sub))?;
    table.end_record()
}

/// The quanta that were taken, in the order of the table.
#[derive(Drop)]
pub struct TakenRows {
    taken: Vec<Quantum>,
}

impl Model for TakenRows {
    ghost use Rattle.std.specs.Prelude.{List};
    ghost use Rattle.pf_board.specs.declared.quantum.Quantum.{Quantum};

    ghost Value = { List Quantum };

    ghost view = { λ r. r.taken.items };
}

impl TakenRows {
    ghost use Rattle.std.specs.Prelude.{◌≡◌, ◌∷◌, ◌+◌, ◌<◌, length, drop};

    /// These quanta.
    pub fn new(taken: Vec<Quantum>) -> Self
        ensures { result ≡ taken.items }
    {
        TakenRows { taken }
    }

    /// The one at a place.
    pub fn get(&self, at: u64) -> Quantum
        requires { at < length self.now }
        ensures { drop at self.now ≡ result ∷ drop (at + 1) self.now }
    {
        self.taken[at as usize]
    }

    /// How many there are.
    pub fn len(&self) -> u64
        ensures { result ≡ length self.now }
    {
        self.taken.len() as u64
    }
}

impl Records for TakenRows {
    ghost use Rattle.std.specs.Prelude.{length, drop, map};
    ghost use Rattle.pf_drill.specs.Taken.{taken_record};

    ghost count = { λ r. length r };

    ghost rest = { λ r at. map taken_record (drop at r) };

    fn count(&self) -> u64 {
        self.len()
    }

    fn push_record(&self, table: &mut Table, at: u64) -> Result<(), AllocError> {
        push_quantum(table, self.get(at))
    }
}

/// The quanta that were taken as a table, in pieces: the heading, and then the records.
pub type TakenPieces = Chain<Whole, RecordPieces<TakenRows>>;

/// The quanta that were taken as a table, in pieces: a line for each, in the order in which they come.
///
/// # Errors
///
/// Where memory is refused.
pub fn taken_pieces(alloc: Global, taken: Vec<Quantum>) -> Result<TakenPieces, AllocError>
    ensures { IfOk result (λ pieces. pieces ≡ taken_text_of taken.items) }
{
    let mut table = Table::new(alloc);
    table.push_texts(&["slot", "processor", "task", "sub"])?;
    let heading = Whole::new(table.finish()?);
    Ok(Chain::new(heading, RecordPieces::new(TakenRows::new(taken))))
}
