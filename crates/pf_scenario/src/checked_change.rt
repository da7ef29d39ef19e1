ghost use Rattle.std.specs.Prelude.{◌≡◌};

use crate::change::Change;
use std::marker::Model;

/// A change that has no fault, and the least slot that it touches. `Scenario::checked` makes it, and `Scenario::make` takes it.
#[derive(Drop)]
pub struct CheckedChange {
    pub(crate) change: Change,
    pub(crate) first_slot: u64,

    /// Where the card of the event stands that is altered or struck: there it is looked for first.
    pub(crate) at: usize,
}

impl Model for CheckedChange {
    ghost use Rattle.pf_scenario.specs.Checked.{Checked};

    ghost Value = { Checked };

    ghost view = { λ c. record { change = c.change; first_slot = c.first_slot } };
}

impl CheckedChange {
    /// The least slot that the change touches: for an alter the lower of the old slot and the new.
    pub fn first_slot(&self) -> u64
        ensures { result ≡ self.now.first_slot }
    {
        self.first_slot
    }
}
