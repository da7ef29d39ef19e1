use std::alloc::{AllocError, Global};
use std::marker::Model;

/// A row of a table: its cells, from the left.
#[derive(Drop)]
pub struct Row {
    cells: Vec<Vec<u8>>,
}

impl Model for Row {
    ghost use Rattle.std.specs.Prelude.{ℕ, List, map};

    ghost Value = { List (List ℕ) };

    ghost view = { λ r. map (λ cell. cell.items) r.cells.items };
}

impl Row {
    ghost use Rattle.std.specs.Prelude.{◌≡◌, ◌++◌, ◌∷◌, [], OnOk, length};
    ghost use Rattle.pf_text.specs.Columns.Columns.{cell_at};

    /// A row without cells.
    pub fn new(alloc: Global) -> Self
        ensures { result ≡ [] }
    {
        Row {
            cells: Vec::new(alloc),
        }
    }

    /// Adds a cell of this text.
    ///
    /// # Errors
    ///
    /// Where memory is refused: the row is as before.
    pub fn push(&mut self, cell: Vec<u8>) -> Result<(), AllocError>
        ensures { OnOk result (self.new ≡ self.old ++ cell.items ∷ []) }
    {
        self.cells.push(cell)?;
        Ok(())
    }

    /// How many cells there are.
    pub fn len(&self) -> usize
        ensures { result ≡ length self.now }
    {
        self.cells.len()
    }

    /// The cell in a column, without text where the row ends before it.
    pub fn cell(&self, column: usize) -> &[u8]
        ensures { result.now ≡ cell_at self.now column }
    {
        match self.cells.get(column) {
            Some(cell) => cell,
            None => &[],
        }
    }
}
