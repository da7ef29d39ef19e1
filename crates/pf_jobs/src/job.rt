/// A job of a task: as many of its subtasks, one after another, as its cost says. Times are slots.
#[derive(Clone, Copy)]
pub struct Job {
    /// The task's number.
    pub task: u64,
    /// The number of the job, from 1.
    pub number: u64,
    /// The release of its first subtask.
    pub release: u64,
    /// The deadline of its last subtask.
    pub deadline: u64,
    /// The slot after that in which its last subtask ran, if it did.
    pub finish: Option<u64>,
}
