/// Whether the loads of a run were within the processors in use, and if not, from which slot on and by how much.
#[derive(Clone, Copy, Debug, PartialEq, Eq)]
pub struct Fit {
    /// The first slot whose load was above the units of the processors in use; none where there was none.
    pub first: Option<u64>,
    /// By how many units of 1/h the loads were above them, in all slots together.
    pub overload: u128,
}
