/// Why a quantum is shown.
#[derive(Clone, Copy)]
pub struct Choice {
    /// The processors, where they are given.
    pub processors: Option<u64>,
    /// How many its plan needs.
    pub needed: u64,
    /// How many quanta were tried, where none is given.
    pub tried: Option<usize>,
}
