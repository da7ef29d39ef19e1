/// A task in slots: `cost` quanta in each `period` slots, from the slot `join` on.
#[derive(Clone, Copy)]
pub struct Slotted {
    /// The quanta of a job, 1 to the period.
    pub cost: u64,
    /// The slots between two jobs.
    pub period: u64,
    /// The slot of its join, below the horizon of a wide desk.
    pub join: u64,
    /// How many slots before its window a quantum may run, as many as a desk allows at most.
    pub early: u64,
}
