/// How far a task is from its fair share.
#[derive(Clone, Copy, Debug, PartialEq, Eq)]
pub struct Lag {
    /// The task's number, 1 to 4,095.
    pub task: u32,
    /// Its cost, in quanta.
    pub cost: u64,
    /// Its period, in slots.
    pub period: u64,
    /// The quanta that it received.
    pub received: u64,
    /// cost * clock - period * received: the lag times the period. Above 0 the task is behind its fair share.
    pub scaled: i64,
}
