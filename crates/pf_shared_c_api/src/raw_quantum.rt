ghost use Rattle.std.specs.Prelude.{◌≡◌};
ghost use Rattle.pf_shared_c_api.specs.Taking.{raw_quantum};

use pf_board::quantum::Quantum;

/// One slot of one processor for one subtask, as C gets it.
#[repr(C)]
#[derive(Clone, Copy)]
pub struct RawQuantum {
    /// The slot.
    pub slot: u64,
    /// The processor, from 0.
    pub processor: u32,
    /// The task's number, 1 to 4,095.
    pub task: u32,
    /// The subtask's number, from 1.
    pub sub: u64,
}

impl RawQuantum {
    /// The quantum for C.
    pub fn of(quantum: Quantum) -> RawQuantum
        ensures { result ≡ raw_quantum quantum }
    {
        RawQuantum {
            slot: quantum.slot,
            processor: quantum.processor,
            task: quantum.task,
            sub: u64::from(quantum.sub),
        }
    }
}
