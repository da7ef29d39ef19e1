ghost use Rattle.std.specs.Prelude.{◌≡◌};
ghost use Rattle.pf_c_api.specs.Pictures.{look_in, style_in};

use pf_vocabulary::look::cell::Cell;
use pf_vocabulary::look::look::Look;
use pf_vocabulary::look::style::Style;
use pf_vocabulary::look::wrap::Wrap;

/// The number of `Style::Strips`.
pub const STRIPS: u64 = 0;

/// The number of `Style::Stairs`.
pub const STAIRS: u64 = 1;

/// How a picture looks, as C gives it.
#[repr(C)]
#[derive(Clone, Copy)]
pub struct RawLook {
    /// How wide each slot is, 6 to 40.
    pub cell: u64,
    /// How many slots stand side by side, 1 to 4,096.
    pub wrap: u64,
    /// `STRIPS` or `STAIRS`.
    pub style: u64,
}

impl RawLook {
    /// The look that is meant; none where a number is out of its limits.
    pub fn look(self) -> Option<Look>
        ensures { result ≡ look_in self }
    {
        let Some(cell) = Cell::new(self.cell) else {
            return None;
        };
        let Some(wrap) = Wrap::new(self.wrap) else {
            return None;
        };
        let Some(style) = style_in(self.style) else {
            return None;
        };
        Some(Look { cell, wrap, style })
    }
}

/// The style of this number.
fn style_in(number: u64) -> Option<Style>
    ensures { result ≡ style_in number }
{
    match number {
        STRIPS => Some(Style::Strips),
        STAIRS => Some(Style::Stairs),
        _ => None,
    }
}
