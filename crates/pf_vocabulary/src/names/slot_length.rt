use crate::names::unit::Unit;
use std::fmt;

/// The greatest `length` of a slot; the least is 1.
pub const LARGEST_LENGTH: u64 = 1_000_000_000;

/// How long a slot is: so many of a unit. It is shown as `500us`.
#[derive(Clone, Copy)]
pub struct SlotLength {
    /// How many, 1 to `LARGEST_LENGTH`.
    pub length: u64,
    /// Of this unit.
    pub unit: Unit,
}

impl fmt::Display for SlotLength {
    ghost use Rattle.std.specs.Prelude.{Some};
    ghost use Rattle.pf_vocabulary.specs.Names.Slots.{slot_text};

    ghost output = { λ slot. Some (slot_text slot) };

    fn fmt<W: fmt::Write>(&self, f: &mut fmt::Formatter<W>) -> fmt::Result {
        let length = self.length;
        let word = self.unit.word();
        write!(f, "{length}{word}")
    }
}
