ghost use Rattle.std.specs.Prelude.{◌≡◌};
ghost use Rattle.pf_convert.specs.Words.Reading.{has_quantum};

use std::marker::Model;

/// The most quanta.
pub const MOST_QUANTA: usize = 64;

/// Up to 64 quanta, in nanoseconds, in the order of the words.
#[derive(Drop)]
pub struct Quanta {
    lengths: [u64; MOST_QUANTA],
    count: usize,
}

impl Model for Quanta {
    ghost use Rattle.std.specs.Prelude.{ℕ, List, ◌≤◌, take};

    ghost Value = { List ℕ };

    ghost view = { λ q. take q.count q.lengths };

    ghost invariant = { λ q. q.count ≤ 64 };
}

impl Quanta {
    ghost use Rattle.std.specs.Prelude.{◌≡◌, ◌++◌, ◌∷◌, [], ◌<◌, ◌≤◌, length};
    ghost use Rattle.pf_convert.specs.Words.Reading.{has_quantum};

    /// No quanta.
    pub fn new() -> Self
        ensures { result ≡ [] }
    {
        Quanta {
            lengths: [0; MOST_QUANTA],
            count: 0,
        }
    }

    /// The quanta.
    pub fn all(&self) -> &[u64]
        ensures all { result.now ≡ self.now }
        ensures few { length result.now ≤ MOST_QUANTA }
    {
        &self.lengths[..self.count]
    }

    /// Adds a quantum.
    pub fn push(&mut self, quantum: u64)
        requires { length self.old < MOST_QUANTA }
        ensures { self.new ≡ self.old ++ quantum ∷ [] }
    {
        self.lengths[self.count] = quantum;
        self.count += 1;
    }

    /// Whether one of them is as long.
    pub fn has(&self, quantum: u64) -> bool
        ensures { result ≡ has_quantum quantum self.now }
    {
        has_quantum(self.all(), quantum)
    }
}

/// Whether one of these quanta is as long.
fn has_quantum(quanta: &[u64], quantum: u64) -> bool
    ensures { result ≡ has_quantum quantum quanta.now }
{
    for other in quanta {
        if *other == quantum {
            return true;
        }
    }
    false
}
