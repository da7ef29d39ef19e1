/// Some slots one after another in which load and room stay as they are. Both are in units of 1/h of a processor.
#[derive(Clone, Copy)]
pub struct Stretch {
    /// The first of the slots.
    pub from: u64,
    /// The slot after the last of them.
    pub to: u64,
    /// What the tasks inside ask for, together.
    pub load: u64,
    /// What the processors in use have.
    pub room: u64,
}
