use crate::for_c::ForC;
use pf_tally::lag::Lag;

/// How far a task is from its fair share, as C gets it.
#[repr(C)]
#[derive(Clone, Copy)]
pub struct RawLag {
    /// The task's number, 1 to 4,095.
    pub task: u64,
    /// Its cost, in quanta.
    pub cost: u64,
    /// Its period, in slots.
    pub period: u64,
    /// The quanta that it received.
    pub received: u64,
    /// The lag times the period. Above 0 the task is behind its fair share.
    pub scaled: i64,
}

impl ForC for Lag {
    ghost use Rattle.pf_c_api.specs.Told.{raw_lag};

    type Raw = RawLag;

    ghost raw = { raw_lag };

    fn for_c(self) -> RawLag {
        RawLag {
            task: u64::from(self.task),
            cost: self.cost,
            period: self.period,
            received: self.received,
            scaled: self.scaled,
        }
    }
}
