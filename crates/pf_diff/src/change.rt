use crate::finding::Finding;

/// What is found at a key in two tables.
#[derive(Clone, Copy)]
pub struct Change {
    /// The first number of the key: a task, or an event's number.
    pub first: u64,
    /// The second: a subtask, a slot, or 0.
    pub second: u64,
    /// What is found in the first table, if anything is.
    pub before: Option<Finding>,
    /// What is found in the second one.
    pub after: Option<Finding>,
}
