ghost use Rattle.std.specs.Prelude.{◌≡◌, ◌-◌, ◌^◌, ◌<◌};
ghost use Rattle.pf_code.specs.Outline.{nanoseconds_of, unit_length};

use crate::repetition::Repetition;
use pf_vocabulary::names::slot_length::SlotLength;
use pf_vocabulary::names::unit::Unit;

/// What a table tells of its slots.
#[derive(Clone, Copy)]
pub struct Outline {
    /// Its first slot.
    pub from: u64,
    /// The slot at which it ends, itself not in it.
    pub to: u64,
    /// How many slots were stepped.
    pub now: u64,
    /// How many processors there are.
    pub processors: u32,
    /// The base.
    pub base: u64,
    /// Whether it repeats.
    pub repetition: Repetition,
    /// How long a slot is, where that is told.
    pub slot: Option<SlotLength>,
}

impl Outline {
    /// How many slots it has.
    pub(crate) fn slots(self) -> u64
        ensures { result ≡ self.to - self.from }
    {
        self.to.saturating_sub(self.from)
    }
}

/// The nanoseconds of a unit.
fn unit_length(unit: Unit) -> u64
    ensures { result ≡ unit_length unit }
{
    match unit {
        Unit::Nanosecond => 1,
        Unit::Microsecond => 1_000,
        Unit::Millisecond => 1_000_000,
        Unit::Second => 1_000_000_000,
    }
}

/// The nanoseconds of a slot.
pub(crate) fn nanoseconds_of(slot: SlotLength) -> u128
    ensures value { result ≡ nanoseconds_of slot }
    ensures small { result < 2 ^ 94 }
{
    u128::from(slot.length) * u128::from(unit_length(slot.unit))
}
