/// How long a quantum is, how many processors its plan needs, and how many faults it has where there is none.
#[derive(Clone, Copy)]
pub struct Outcome {
    /// In nanoseconds.
    pub quantum: u64,
    /// None where there is no plan.
    pub needed: Option<u64>,
    /// 0 where there is a plan.
    pub faults: usize,
}
