use crate::finding::Finding;

/// A cell of a table: a key of two numbers, and what is found there. A table whose keys are one number has 0 as the second.
#[derive(Clone, Copy)]
pub struct Cell {
    /// A task, or an event's number.
    pub first: u64,
    /// A subtask, or a slot.
    pub second: u64,
    /// What is found.
    pub finding: Finding,
}
