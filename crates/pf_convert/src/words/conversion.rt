use crate::words::arrivals::Arrivals;
use crate::words::quanta::Quanta;
use pf_vocabulary::names::unit::Unit;

/// What a list of tasks is made into.
#[derive(Clone, Copy)]
pub enum ConvertFormat {
    /// A script in slots of one quantum.
    Script,
    /// A table of what each quantum gives.
    Table,
    /// The same as an object of JSON.
    Json,
}

/// What the words of a conversion ask for.
#[derive(Drop)]
pub struct Conversion {
    /// What the list is made into.
    pub format: ConvertFormat,
    /// The unit of times that carry none, where it is given.
    pub unit: Option<Unit>,
    /// The quanta, none where they are found: one at most for a script.
    pub quanta: Quanta,
    /// How long a switch takes, in nanoseconds, below each quantum.
    pub switch: u64,
    /// The processors, 1 to 64, where they are given.
    pub processors: Option<u64>,
    /// When the jobs of a task arrive.
    pub arrivals: Arrivals,
}
