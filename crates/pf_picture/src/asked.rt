/// What a join asks for.
#[derive(Clone, Copy)]
pub struct Asked {
    /// In quanta, 1 to the period.
    pub cost: u64,
    /// In slots.
    pub period: u64,
    /// By how many slots a subtask may run before its release.
    pub early: u64,
}
