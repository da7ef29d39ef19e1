ghost use Rattle.std.specs.Prelude.{◌≡◌};

use pf_order::pick::Pick;
use pf_run::denied::Denied;
use std::marker::Model;

/// What a slot gave: the subtasks that run in it, the events that were denied, and how many processors are in use.
#[derive(Drop)]
pub struct Outcome {
    pub(crate) picks: Vec<Pick>,
    pub(crate) denials: Vec<Denied>,
    pub(crate) count: u32,
}

impl Model for Outcome {
    ghost use Rattle.pf_engine.specs.Fits.{Taken};

    ghost Value = { Taken };

    ghost view = { λ o. record { slot = record { picks = o.picks.items; denials = o.denials.items }; count = o.count } };
}

impl Outcome {
    /// The subtasks that run in the slot, in the order of their choice.
    pub fn picks(&self) -> &[Pick]
        ensures { result.now ≡ self.now.slot.picks }
    {
        self.picks.as_slice()
    }

    /// The events that were denied, in the order in which they were taken.
    pub fn denials(&self) -> &[Denied]
        ensures { result.now ≡ self.now.slot.denials }
    {
        self.denials.as_slice()
    }

    /// How many processors are in use in the slot.
    pub fn count(&self) -> u32
        ensures { result ≡ self.now.count }
    {
        self.count
    }
}
