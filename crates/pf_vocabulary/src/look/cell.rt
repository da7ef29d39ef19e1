ghost use Rattle.std.specs.Prelude.{◌≡◌, ℕ};
ghost use Rattle.pf_vocabulary.specs.Look.Sizes.{IsCell, cell_of, usual_cell};

use std::marker::Model;

/// The narrowest that a slot of a picture may be.
pub const NARROWEST: u64 = 6;

/// The widest that a slot of a picture may be.
pub const WIDEST: u64 = 40;

/// How wide a slot of a picture is where nothing is said of it.
pub const USUAL: u64 = 20;

/// How wide each slot of a picture is: 6 to 40, in the picture's own units.
#[derive(Clone, Copy)]
pub struct Cell {
    width: u64,
}

impl Model for Cell {
    ghost Value = { ℕ };

    ghost view = { λ c. c.width };

    ghost invariant = { λ c. IsCell c.width };

    ghost inverse = { λ n. record { width = n } };
}

impl Cell {
    /// A slot of this width; `None` where it is not 6 to 40.
    pub fn new(width: u64) -> Option<Self>
        ensures { result ≡ cell_of width }
    {
        if width < NARROWEST || width > WIDEST {
            return None;
        }
        Some(Cell { width })
    }

    /// A slot of the usual width, which is 20.
    pub fn usual() -> Self
        ensures { result ≡ usual_cell }
    {
        Cell { width: USUAL }
    }

    /// The width.
    pub fn get(self) -> u64
        ensures value { result ≡ self }
        ensures cell { IsCell self }
    {
        self.width
    }
}
