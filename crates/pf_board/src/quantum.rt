/// One slot of one processor for one subtask.
#[derive(Clone, Copy, Debug, PartialEq, Eq)]
pub struct Quantum {
    /// Below 2^22, where it is issued.
    pub slot: u64,
    pub processor: u32,
    /// From 1 to 4,095, where it is issued.
    pub task: u32,
    /// From 1 to 2^22, where it is issued.
    pub sub: u32,
}
