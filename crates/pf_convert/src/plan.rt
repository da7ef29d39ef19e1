use crate::slotted::Slotted;

/// What tasks come to in slots of one quantum.
#[derive(Drop)]
pub struct Plan {
    /// The base, 1 to 2^30, of which each period is a divisor.
    pub base: u64,
    /// Whether the base is the least common multiple of the periods; else each was rounded down to a divisor of it.
    pub exact: bool,
    /// What the tasks ask for together, in units of 1/base of a processor.
    pub load: u64,
    /// The tasks with the periods of the plan, in the order in which they were told.
    pub tasks: Vec<Slotted>,
}
