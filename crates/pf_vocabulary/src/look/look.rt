ghost use Rattle.std.specs.Prelude.{◌≡◌};
ghost use Rattle.pf_vocabulary.specs.Look.Looks.{usual_look};

use crate::look::cell::Cell;
use crate::look::style::Style;
use crate::look::wrap::Wrap;

/// How a picture looks.
#[derive(Clone, Copy)]
pub struct Look {
    /// How wide each slot is.
    pub cell: Cell,
    /// How many slots stand side by side.
    pub wrap: Wrap,
    /// How the tasks are drawn.
    pub style: Style,
}

impl Look {
    /// A slot of the usual width, all slots in one block, and strips.
    pub fn usual() -> Self
        ensures { result ≡ usual_look }
    {
        Look {
            cell: Cell::usual(),
            wrap: Wrap::usual(),
            style: Style::Strips,
        }
    }
}
