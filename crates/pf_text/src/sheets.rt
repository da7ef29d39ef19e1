ghost use Rattle.std.specs.Prelude.{◌≡◌, ◌++◌, ◌<◌, ◌≤◌, ◌+◌, ℕ, List, [], length, IfOk, OnOk};
ghost use Rattle.std.specs.List.{flat_map};
ghost use Rattle.pf_text.specs.Sheets.{AddsAtMostOne, IsFilled};
ghost use Rattle.pf_text.specs.Page.{table_text};

use crate::pieces::Pieces;
use crate::table::Table;
use std::alloc::{AllocError, Global};
use std::marker::Model;

/// A part of a table's records, by places, each of which has a record or none.
pub trait Sheet {
    // how many places there are
    ghost count: { Self → ℕ };

    // the records from a place on
    ghost rest: { Self → ℕ → List (List (List ℕ)) };

    /// How many places there are.
    fn count(&self) -> u64
        ensures value { result ≡ count self.now }
        ensures end { rest self.now result ≡ [] };

    /// Adds the record of a place, if it has one, to a table.
    ///
    /// # Errors
    ///
    /// Where memory is refused: the table is given up.
    fn push_place(&self, table: &mut Table, at: u64) -> Result<(), AllocError>
        requires within { at < count self.now }
        requires start { table.old.fields ≡ [] }
        ensures { OnOk result (AddsAtMostOne (rest self.now at) (rest self.now (at + 1)) table.old table.new) };
}

/// Adds the records of a sheet from a place on, until the table is long. The answer is the place that it came to.
fn fill<S: Sheet>(table: &mut Table, sheet: &S, from: u64) -> Result<u64, AllocError>
    requires within { from ≤ S.count sheet.now }
    requires start { table.old.fields ≡ [] }
    ensures { IfOk result (λ to. IsFilled (S.count sheet.now) (S.rest sheet.now from) (S.rest sheet.now to) to table.old table.new) }
{
    let count = sheet.count();
    for at in from..count {
        if table.is_long() {
            return Ok(at);
        }
        sheet.push_place(table, at)?;
    }
    Ok(count)
}

/// The text of the records of some sheets: each piece has as many of them as make it long.
#[derive(Drop)]
pub struct SheetPieces<S: Sheet> {
    sheets: Vec<S>,
    /// The sheet that is next.
    next: usize,
    /// How many of its places were passed.
    at: u64,
}

impl<S: Sheet> Model for SheetPieces<S> {
    ghost use Rattle.std.specs.Prelude.{ℕ, List, ◌≡◌, ◌≤◌, ◌<◌, length, drop};
    ghost use Rattle.pf_text.specs.Page.{table_text};
    ghost use Rattle.pf_text.specs.Sheets.{records_behind, IsWithinSheet};

    ghost Value = { List ℕ };

    ghost view = { λ p. table_text (records_behind S.rest p.at (drop p.next p.sheets.items)) };

    ghost invariant = { λ p. (p.next ≤ length p.sheets.items) × IsWithinSheet S.count p.at (drop p.next p.sheets.items) };
}

impl<S: Sheet> SheetPieces<S> {
    /// The pieces of all records.
    pub fn new(sheets: Vec<S>) -> Self
        ensures { result ≡ table_text (flat_map (λ sheet. S.rest sheet 0) sheets.items) }
    {
        SheetPieces {
            sheets,
            next: 0,
            at: 0,
        }
    }
}

impl<S: Sheet> Pieces for SheetPieces<S> {
    ghost left = { λ p. p };

    ghost outcome = { λ _. tt };

    fn next_piece(&mut self, alloc: Global) -> Result<Option<Vec<u8>>, AllocError> {
        let mut table = Table::new(alloc);
        let mut from = self.at;
        for next in self.next..self.sheets.len() {
            let sheet = &self.sheets[next];
            let to = fill(&mut table, sheet, from)?;
            if to < sheet.count() {
                self.next = next;
                self.at = to;
                return Ok(Some(table.finish()?));
            }
            from = 0;
        }
        self.next = self.sheets.len();
        self.at = 0;
        let text = table.finish()?;
        if text.is_empty() {
            return Ok(None);
        }
        Ok(Some(text))
    }
}
