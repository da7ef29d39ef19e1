ghost use Rattle.std.specs.Prelude.{◌≡◌};
ghost use Rattle.pf_vocabulary.specs.Options.Ranges.{end_of, first_of, is_whole, is_within, slots_of, whole};

/// A range of slots, by its ends, each of which may be left out.
#[derive(Clone, Copy)]
pub struct SlotRange {
    /// The first slot; 0 where it is left out.
    pub from: Option<u64>,
    /// The slot at which it ends, itself not in it; the number of slots stepped where it is left out.
    pub to: Option<u64>,
}

impl SlotRange {
    /// All slots: both ends are left out.
    pub fn whole() -> Self
        ensures { result ≡ whole }
    {
        SlotRange {
            from: None,
            to: None,
        }
    }

    /// Whether both ends are left out.
    pub fn is_whole(self) -> bool
        ensures { result ≡ is_whole self }
    {
        self.from.is_none() && self.to.is_none()
    }

    /// Its first slot.
    pub fn first(self) -> u64
        ensures { result ≡ first_of self }
    {
        self.from.unwrap_or(0)
    }

    /// The slot at which it ends, where so many slots were stepped.
    pub fn end(self, now: u64) -> u64
        ensures { result ≡ end_of self now }
    {
        self.to.unwrap_or(now)
    }

    /// How many slots are in it, where so many were stepped.
    pub fn slots(self, now: u64) -> u64
        ensures { result ≡ slots_of self now }
    {
        self.end(now).saturating_sub(self.first())
    }

    /// Whether it lies within so many slots that were stepped: its ends are in order, and none is above that.
    pub fn is_within(self, now: u64) -> bool
        ensures { result ≡ is_within self now }
    {
        let end = self.end(now);
        self.first() <= end && end <= now
    }
}
