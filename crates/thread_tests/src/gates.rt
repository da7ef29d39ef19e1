//! Gates to drill with.

use pf_board::quantum::Quantum;
use pf_drill::gate::Gate;
use pf_drill::worker::Worker;
use std::sync::atomic::{AtomicBool, Ordering};
use std::thread::yield_now;

/// How often a worker looks for the other.
const MOST_TURNS: u32 = 1_000_000;

/// A gate that is shut to one subtask of a task.
#[derive(Drop)]
pub(crate) struct GateShutTo {
    pub(crate) task: u32,
    pub(crate) sub: u32,
}

impl Gate for GateShutTo {
    ghost use Rattle.std.specs.Prelude.{⊤};

    ghost lets_in = { λ _ _ _. ⊤ };

    ghost shuts_out = { λ _ _ _. ⊤ };

    fn arrive(&self, _worker: &Worker, quantum: &Quantum) -> bool {
        quantum.task != self.task || quantum.sub != self.sub
    }
}

/// A gate that opens in slot 0 where each of the first two processors' workers sees the other arrive.
#[derive(Drop)]
pub(crate) struct MeetingGate {
    first: AtomicBool,
    second: AtomicBool,
}

impl MeetingGate {
    /// One at which nobody has arrived.
    pub(crate) fn new() -> Self {
        MeetingGate {
            first: AtomicBool::new(false),
            second: AtomicBool::new(false),
        }
    }
}

impl Gate for MeetingGate {
    ghost use Rattle.std.specs.Prelude.{⊤};

    ghost lets_in = { λ _ _ _. ⊤ };

    ghost shuts_out = { λ _ _ _. ⊤ };

    fn arrive(&self, _worker: &Worker, quantum: &Quantum) -> bool {
        if quantum.slot != 0 {
            return true;
        }
        if quantum.processor == 0 {
            return meet(&self.first, &self.second);
        }
        meet(&self.second, &self.first)
    }
}

/// Shows that one is here, and waits for the other.
fn meet(one: &AtomicBool, other: &AtomicBool) -> bool {
    one.store(true, Ordering::Release);
    for _ in 0..MOST_TURNS {
        if other.load(Ordering::Acquire) {
            return true;
        }
        yield_now();
    }
    false
}
