use crate::margins::least_period::LeastPeriod;

/// How far the numbers of a task may go, the others as they are.
#[derive(Clone, Copy)]
pub struct Margin {
    /// The most work of a job, in nanoseconds; none where there is room for none.
    pub most: Option<u64>,
    /// The least period.
    pub least: LeastPeriod,
}
