/// A quantum of a task.
#[derive(Clone, Copy)]
pub(crate) struct Quantum {
    /// Its slot.
    pub slot: u64,
    /// The number of the subtask that ran in it, from 1.
    pub sub: u32,
}
