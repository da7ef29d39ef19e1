ghost use Rattle.std.specs.Prelude.{◌≡◌, ◌≤◌, ◌↔◌, IsTrue};
ghost use Rattle.pf_order.specs.Priority.{IsPriority, Precedes, precedes};
ghost use Rattle.pf_order.specs.Counts.{Counts, Compares, compared_once, slot_once};
ghost use Rattle.pf_order.specs.Counted.{CountsAtMost};

use crate::key::Key;
use std::marker::Model;

/// Counts the work: comparisons of keys, and slots. A counter that has reached `u64::MAX` stays there.
#[derive(Debug, Drop)]
pub struct Meter {
    compared: u64,
    slots: u64,
}

impl Model for Meter {
    ghost use Rattle.pf_order.specs.Counts.{Counts};

    ghost Value = { Counts };

    ghost view = { λ m. record { compared = m.compared; slots = m.slots } };
}

impl Meter {
    /// A meter that has counted nothing.
    pub fn new() -> Self
        ensures { result ≡ record { compared = 0; slots = 0 } }
    {
        Meter {
            compared: 0,
            slots: 0,
        }
    }

    /// Whether x precedes y in the order of PD2: by the earlier deadline, then the bit 1 before the bit 0, then for
    /// two bits of 1 the later group deadline, then the lower task number. Counts one comparison.
    ///
    /// Source: Anderson and Srinivasan, "Early-release fair scheduling", ECRTS 2000.
    #[tactic(auto, unfolding(crate::specs::Priority::priority_cmp))]
    pub fn before(&mut self, x: &Key, y: &Key) -> bool
        ensures order { IsTrue result ↔ Precedes x.now y.now }
        ensures test { result ≡ precedes x.now y.now }
        ensures counted { self.new ≡ compared_once self.old }
        ensures one { Compares 1 self.old self.new }
        ensures rises { self.old.compared ≤ self.new.compared }
    {
        self.compared = self.compared.saturating_add(1);
        // without a branch, since which part decides is seldom to be foretold
        let lower_task = x.task < y.task;
        let by_urgency = (x.urgency > y.urgency) | ((x.urgency == y.urgency) & lower_task);
        (x.deadline < y.deadline) | ((x.deadline == y.deadline) & by_urgency)
    }

    /// Counts one slot.
    pub fn slot(&mut self)
        ensures counted { self.new ≡ slot_once self.old }
        ensures one { CountsAtMost 1 self.old self.new }
    {
        self.slots = self.slots.saturating_add(1);
    }

    /// How many comparisons were counted.
    pub fn compared(&self) -> u64
        ensures { result ≡ self.now.compared }
    {
        self.compared
    }

    /// How many slots were counted.
    pub fn slots(&self) -> u64
        ensures { result ≡ self.now.slots }
    {
        self.slots
    }
}
