use pf_scenario::change::Change;

/// What a record after the settings asks for.
#[derive(Clone, Copy)]
pub enum Line {
    /// A change to the events.
    Edit {
        /// The change.
        change: Change,
        /// Whether it is refused where it would leave a denial.
        strict: bool,
    },
    /// So many steps, 1 to the horizon.
    Steps(u64),
}

/// The settings that a script opens with. Numbers are as they are written: none is tried against its limits.
#[derive(Clone, Copy)]
pub struct Opening {
    /// The number of processors.
    pub processors: u64,
    /// The base of the weights.
    pub base: u64,
    /// The most load that joins may make, in 1/h.
    pub cap: u64,
    /// The distance of checkpoints, in slots.
    pub every: u64,
}
