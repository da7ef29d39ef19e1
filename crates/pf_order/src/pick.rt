/// A subtask of a task: what runs in one slot on one processor.
#[derive(Clone, Copy, Debug, PartialEq, Eq)]
pub struct Pick {
    /// The task's number, 1 to 4,095.
    pub task: u32,
    /// The subtask's number, from 1.
    pub sub: u32,
}
