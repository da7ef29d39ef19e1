/// The longest quantum, in nanoseconds: a second.
pub const LONGEST_QUANTUM: u64 = 1_000_000_000;

/// How long a slot is, and what a switch takes of it.
#[derive(Clone, Copy)]
pub struct Quantum {
    /// In nanoseconds, 1 to `LONGEST_QUANTUM`.
    pub length: u64,
    /// In nanoseconds, below the length: each quantum may begin with a switch.
    pub switch: u64,
}
