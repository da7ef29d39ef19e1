ghost use Rattle.std.specs.Prelude.{◌≡◌, ℕ};
ghost use Rattle.pf_vocabulary.specs.Look.Sizes.{IsWrap, usual_wrap, wrap_of};

use std::marker::Model;

/// The most slots that a picture may show.
pub const MOST_SLOTS: u64 = 4_096;

/// How many slots of a picture stand side by side, in a block: 1 to 4,096.
#[derive(Clone, Copy)]
pub struct Wrap {
    slots: u64,
}

impl Model for Wrap {
    ghost Value = { ℕ };

    ghost view = { λ w. w.slots };

    ghost invariant = { λ w. IsWrap w.slots };

    ghost inverse = { λ n. record { slots = n } };
}

impl Wrap {
    /// Blocks of so many slots; `None` where they are not 1 to 4,096.
    pub fn new(slots: u64) -> Option<Self>
        ensures { result ≡ wrap_of slots }
    {
        if slots < 1 || slots > MOST_SLOTS {
            return None;
        }
        Some(Wrap { slots })
    }

    /// One block of all slots.
    pub fn usual() -> Self
        ensures { result ≡ usual_wrap }
    {
        Wrap { slots: MOST_SLOTS }
    }

    /// How many slots a block has.
    pub fn get(self) -> u64
        ensures value { result ≡ self }
        ensures wrap { IsWrap self }
    {
        self.slots
    }
}
