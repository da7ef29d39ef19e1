/// What the head of a picture tells.
#[derive(Clone, Copy)]
pub struct Summary {
    /// The first slot that is shown.
    pub from: u64,
    /// The slot at which those end.
    pub to: u64,
    /// How many slots were stepped.
    pub stepped: u64,
    /// How many processors there are.
    pub processors: u64,
    /// In quanta.
    pub base: u64,
    /// In quanta.
    pub cap: u64,
    /// How many tasks are shown.
    pub shown: u64,
    /// How many tasks are listed.
    pub listed: u64,
    /// How many windows are missed, of all tasks and slots.
    pub missed: u64,
    /// How many events are denied, of all tasks and slots.
    pub denied: u64,
}
