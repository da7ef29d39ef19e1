/// Where a subtask ran.
#[derive(Clone, Copy)]
pub struct Quantum {
    /// Its slot.
    pub slot: u64,
    /// Its processor.
    pub processor: u32,
}
