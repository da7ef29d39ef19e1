use crate::for_c::ForC;
use pf_tally::miss::Miss;

/// What stands for a slot where there is none.
pub const NEVER: u64 = u64::MAX;

/// A missed window, as C gets it.
#[repr(C)]
#[derive(Clone, Copy)]
pub struct RawMiss {
    /// The task's number, 1 to 4,095.
    pub task: u64,
    /// The subtask's number, from 1.
    pub sub: u64,
    /// Its shifted deadline, in slots.
    pub deadline: u64,
    /// The slot in which it ran late, or `NEVER`.
    pub ran: u64,
}

impl ForC for Miss {
    ghost use Rattle.pf_c_api.specs.Told.{raw_miss};

    type Raw = RawMiss;

    ghost raw = { raw_miss };

    fn for_c(self) -> RawMiss {
        RawMiss {
            task: u64::from(self.task),
            sub: u64::from(self.sub),
            deadline: self.deadline,
            ran: self.ran.unwrap_or(NEVER),
        }
    }
}
