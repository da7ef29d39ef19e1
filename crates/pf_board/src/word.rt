//! The layout of a processor's word.
ghost use Rattle.std.specs.Prelude.{◌≡◌, ◌≢◌, MatchOption};
ghost use Rattle.pf_board.specs.Words.{FitsWord, word_of, quantum_at};

use crate::quantum::Quantum;

/// 2^12: so many tasks to a slot.
const TASKS: u64 = 4_096;

/// 2^23: so many subtasks to a task.
const SUBS: u64 = 8_388_608;

/// A processor's word: 0 where no quantum lies there, else `(slot * 4096 + task) * 8388608 + sub`.
#[derive(Clone, Copy, Debug)]
pub struct Word {
    pub bits: u64,
}

impl Word {
    /// The word of a quantum, which is not 0.
    pub fn encode(quantum: &Quantum) -> Word
        requires { FitsWord quantum.now }
        ensures { result.bits ≡ word_of quantum.now }
    {
        let above = quantum.slot * TASKS + u64::from(quantum.task);
        Word {
            bits: above * SUBS + u64::from(quantum.sub),
        }
    }

    /// The quantum that lies on this word of the processor, if one does.
    pub fn decode(self, processor: u32) -> Option<Quantum>
        ensures { MatchOption result (self.bits ≡ 0) (λ q. (self.bits ≢ 0) × (q ≡ quantum_at processor self.bits)) }
    {
        if self.bits == 0 {
            return None;
        }
        Some(Quantum {
            slot: self.bits / SUBS / TASKS,
            processor,
            task: (self.bits / SUBS % TASKS) as u32,
            sub: (self.bits % SUBS) as u32,
        })
    }
}
