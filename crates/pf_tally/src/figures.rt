use crate::extremes::Extremes;

/// What every simulator tells of a task.
#[derive(Clone, Copy, Debug, PartialEq, Eq)]
pub struct Figures {
    /// The task's number, 1 to 4,095.
    pub task: u32,
    /// Its cost, in quanta.
    pub cost: u64,
    /// Its period, in slots.
    pub period: u64,
    /// The quanta that it received.
    pub quanta: u64,
    /// How often a quantum was on another processor than the one before.
    pub migrations: u64,
    /// How often it went on with a job after a pause.
    pub preemptions: u64,
    /// The jobs that were done, of `cost` quanta each.
    pub jobs: u64,
    /// The shortest and the longest time from the release of a job to its end, in slots; of a job that works ahead of
    /// its release it can be 0 or less.
    pub response: Option<Extremes>,
    /// The missed windows.
    pub missed: u64,
    /// The greatest number of slots by which a subtask ran after the last slot of its window.
    pub tardiness: u64,
    /// The least and the greatest lag, times the period, while the task was inside.
    pub lag: Extremes,
}
