/// The load and the room of a slot and of those after it, until one of the two changes. Both are in units of 1/h of a
/// processor.
#[derive(Clone, Copy, Debug, PartialEq, Eq)]
pub struct Level {
    /// The slot.
    pub slot: u64,
    /// What the tasks inside ask for, together.
    pub load: u64,
    /// What the processors in use have.
    pub room: u64,
}
