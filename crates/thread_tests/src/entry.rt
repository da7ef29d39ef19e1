use pf_board::quantum::Quantum;

/// An entry of the tests' histories: a step, which issues this quantum, or a note, which issues none.
#[derive(Clone, Copy)]
pub struct Entry {
    pub is_step: bool,
    pub quantum: Quantum,
}
