use crate::quantum::Quantum;

/// What a pass got of a processor.
#[derive(Clone, Copy, Debug, PartialEq, Eq)]
pub enum Take {
    /// The quantum is this pass's alone.
    Got(Quantum),
    /// No quantum was there.
    Empty,
    /// Another pass took the quantum that was there.
    Gone,
    /// The board has no such processor.
    NoProcessor,
}
