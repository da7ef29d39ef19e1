ghost use Rattle.std.specs.Prelude.{IsTrue, IsFalse};

use crate::worker::Worker;
use pf_board::quantum::Quantum;

/// Where a worker arrives with the quantum that it took. A drill that ends well says of each quantum that the gate let its
/// worker in: it can know so by a call of `arrive` alone, which answered true.
pub trait Gate {
    ghost use Rattle.pf_board.specs.declared.quantum.Quantum.{Quantum};
    ghost use Rattle.pf_drill.specs.declared.worker.Worker.{Worker};

    // which worker it lets in with which quantum, and to which it is shut
    ghost lets_in: { Self → Worker → Quantum → Type 0 };

    ghost shuts_out: { Self → Worker → Quantum → Type 0 };

    /// Whether the gate is open to the worker, which took this quantum last. It may keep the worker waiting.
    fn arrive(&self, worker: &Worker, quantum: &Quantum) -> bool
        ensures let_in { IsTrue result → lets_in self.now worker.now quantum.now }
        ensures shut_out { IsFalse result → shuts_out self.now worker.now quantum.now };
}
