/// The least period of a task for which the processors have room beside the other tasks, in slots.
#[derive(Clone, Copy)]
pub enum LeastPeriod {
    /// There is none, however long.
    NoRoom,
    /// No period is less.
    OfAll(u64),
    /// No divisor of the base is less, as the base stays as it is; none where they all are.
    OfDivisors(Option<u64>),
}

impl LeastPeriod {
    ghost use Rattle.std.specs.Prelude.{◌≡◌};
    ghost use Rattle.pf_convert.specs.Margins.Periods.{slots_of};

    /// In slots, none where there is no such period.
    pub fn slots(self) -> Option<u64>
        ensures { result ≡ slots_of self }
    {
        match self {
            LeastPeriod::NoRoom => None,
            LeastPeriod::OfAll(period) => Some(period),
            LeastPeriod::OfDivisors(period) => period,
        }
    }
}
