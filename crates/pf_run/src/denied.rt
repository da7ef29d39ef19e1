use pf_admit::denial::Denial;

/// An event that was denied.
#[derive(Clone, Copy, Debug, PartialEq, Eq)]
pub struct Denied {
    /// Its slot.
    pub slot: u64,
    /// Its number.
    pub id: u64,
    /// Why.
    pub denial: Denial,
}
