ghost use Rattle.std.specs.Prelude.{◌≡◌, ◌<◌, ◌≤◌, ◌+◌, ℕ, List, [], length, IfOk, OnOk};
ghost use Rattle.pf_text.specs.Records.{AddsRecord};
ghost use Rattle.pf_text.specs.Page.{table_text};

use crate::pieces::{LONG_PIECE, Pieces};
use crate::table::Table;
use std::alloc::{AllocError, Global};
use std::marker::Model;

/// The records of a table after its heading.
pub trait Records {
    // how many there are
    ghost count: { Self → ℕ };

    // those from a place on
    ghost rest: { Self → ℕ → List (List (List ℕ)) };

    /// How many there are.
    fn count(&self) -> u64
        ensures value { result ≡ count self.now }
        ensures end { rest self.now result ≡ [] };

    /// Adds the record at a place to a table.
    ///
    /// # Errors
    ///
    /// Where memory is refused: the table is given up.
    fn push_record(&self, table: &mut Table, at: u64) -> Result<(), AllocError>
        requires within { at < count self.now }
        requires start { table.old.fields ≡ [] }
        ensures { OnOk result (AddsRecord (rest self.now at) (rest self.now (at + 1)) table.old table.new) };
}

/// The text of some records: each piece has as many of them as make it long.
#[derive(Drop)]
pub struct RecordPieces<R: Records> {
    records: R,
    /// How many of them were handed out.
    at: u64,
}

impl<R: Records> Model for RecordPieces<R> {
    ghost use Rattle.std.specs.Prelude.{ℕ, List, ◌≤◌};
    ghost use Rattle.pf_text.specs.Page.{table_text};

    ghost Value = { List ℕ };

    ghost view = { λ p. table_text (R.rest p.records p.at) };

    ghost invariant = { λ p. p.at ≤ R.count p.records };
}

impl<R: Records> RecordPieces<R> {
    /// The pieces of all records.
    pub fn new(records: R) -> Self
        ensures { result ≡ table_text (R.rest records 0) }
    {
        RecordPieces { records, at: 0 }
    }
}

impl<R: Records> Pieces for RecordPieces<R> {
    ghost left = { λ p. p };

    ghost outcome = { λ _. tt };

    fn next_piece(&mut self, alloc: Global) -> Result<Option<Vec<u8>>, AllocError> {
        let count = self.records.count();
        if self.at >= count {
            return Ok(None);
        }
        let mut table = Table::new(alloc);
        let mut at = self.at;
        while at < count && (at == self.at || !table.is_long()) {
            self.records.push_record(&mut table, at)?;
            at += 1;
        }
        self.at = at;
        Ok(Some(table.finish()?))
    }
}
