/// A window that was missed: its subtask did not run before its deadline.
#[derive(Clone, Copy, Debug, PartialEq, Eq)]
pub struct Miss {
    /// The task's number, 1 to 4,095.
    pub task: u32,
    /// The subtask's number, from 1.
    pub sub: u32,
    /// Its shifted deadline, in slots.
    pub deadline: u64,
    /// The slot in which it ran late, if it did.
    pub ran: Option<u64>,
}
