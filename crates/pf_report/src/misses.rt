ghost use Rattle.std.specs.Prelude.{◌≡◌, [], IfOk, OnOk};
ghost use Rattle.pf_text.specs.Page.{with_record};
ghost use Rattle.pf_report.specs.Tables.{miss_record, misses_table, misses_text};

use pf_desk::snapshot::Snapshot;
use pf_tally::miss::Miss;
use pf_text::pieces::{Chain, Whole, gathered};
use pf_text::records::{RecordPieces, Records};
use pf_text::table::Table;
use std::alloc::{AllocError, Global};
use std::marker::Model;

/// Adds the record of a missed window.
fn push_miss(table: &mut Table, miss: Miss) -> Result<(), AllocError>
    requires { table.old.fields ≡ [] }
    ensures { OnOk result (table.new ≡ with_record table.old (miss_record miss)) }
{
    table.show_number(u64::from(miss.task))?;
    table.show_number(u64::from(miss.sub))?;
    table.show_number(miss.deadline)?;
    match miss.ran {
        Some(slot) => table.show_number(slot)?,
        None => table.show_nothing()?,
    }
    table.end_record()
}

/// The missed windows, by deadline, then by task number.
#[derive(Drop)]
pub struct MissRows {
    misses: Vec<Miss>,
}

impl Model for MissRows {
    ghost use Rattle.std.specs.Prelude.{List};
    ghost use Rattle.pf_tally.specs.declared.miss.Miss.{Miss};

    ghost Value = { List Miss };

    ghost view = { λ r. r.misses.items };
}

impl MissRows {
    ghost use Rattle.std.specs.Prelude.{◌≡◌, ◌∷◌, ◌+◌, ◌<◌, length, drop};

    /// The records of these missed windows.
    pub fn of(misses: Vec<Miss>) -> Self
        ensures { result ≡ misses.items }
    {
        MissRows { misses }
    }

    /// The one at a place.
    pub fn get(&self, at: u64) -> Miss
        requires { at < length self.now }
        ensures { drop at self.now ≡ result ∷ drop (at + 1) self.now }
    {
        self.misses[at as usize]
    }

    /// How many there are.
    pub fn len(&self) -> u64
        ensures { result ≡ length self.now }
    {
        self.misses.len() as u64
    }
}

impl Records for MissRows {
    ghost use Rattle.std.specs.Prelude.{length, drop, map};
    ghost use Rattle.pf_report.specs.Tables.{miss_record};

    ghost count = { λ r. length r };

    ghost rest = { λ r at. map miss_record (drop at r) };

    fn count(&self) -> u64 {
        self.len()
    }

    fn push_record(&self, table: &mut Table, at: u64) -> Result<(), AllocError> {
        push_miss(table, self.get(at))
    }
}

/// The missed windows as a table, by deadline, then by task number, in pieces: the heading, and then the records.
pub type MissPieces = Chain<Whole, RecordPieces<MissRows>>;

/// The missed windows as a table, by deadline, then by task number, in pieces.
///
/// # Errors
///
/// Where memory is refused.
pub fn miss_pieces(alloc: Global, snapshot: &Snapshot) -> Result<MissPieces, AllocError>
    ensures { IfOk result (λ pieces. pieces ≡ misses_text snapshot.now) }
{
    pieces_of_misses(alloc, snapshot.misses()?)
}

/// The table of these missed windows, as `miss_pieces` has it.
///
/// # Errors
///
/// Where memory is refused.
pub fn pieces_of_misses(alloc: Global, misses: Vec<Miss>) -> Result<MissPieces, AllocError>
    ensures { IfOk result (λ pieces. pieces ≡ misses_table misses.items) }
{
    let mut table = Table::new(alloc);
    table.push_texts(&["task", "sub", "deadline", "ran"])?;
    let heading = Whole::new(table.finish()?);
    let rows = MissRows::of(misses);
    Ok(Chain::new(heading, RecordPieces::new(rows)))
}

/// The missed windows as a table, by deadline, then by task number, in whole.
///
/// # Errors
///
/// Where memory is refused.
pub fn misses_csv(alloc: Global, snapshot: &Snapshot) -> Result<Vec<u8>, AllocError>
    ensures { IfOk result (λ text. text.items ≡ misses_text snapshot.now) }
{
    gathered(alloc, miss_pieces(alloc, snapshot)?)
}
