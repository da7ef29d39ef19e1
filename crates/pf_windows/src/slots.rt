/// How many slots were stepped, and which of them are shown.
#[derive(Clone, Copy)]
pub struct Slots {
    /// How many were stepped.
    pub now: u64,
    /// The first that is shown.
    pub from: u64,
    /// The slots below this one are shown.
    pub to: u64,
}
