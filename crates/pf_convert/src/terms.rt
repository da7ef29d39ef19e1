use crate::words::arrivals::Arrivals;

/// What plans are made under.
#[derive(Clone, Copy)]
pub struct Terms {
    /// When the jobs of a task arrive.
    pub arrivals: Arrivals,
    /// How long a switch takes, in nanoseconds.
    pub switch: u64,
    /// The processors, 1 to 64, where they are given.
    pub processors: Option<u64>,
}
