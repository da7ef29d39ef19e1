/// What a script that was carried out came to.
#[derive(Clone, Copy)]
pub struct Carried {
    /// The base h of the weights.
    pub base: u64,
    /// The most load that joins may make, in units of 1/h.
    pub cap: u64,
    /// The processors.
    pub processors: u32,
    /// The slots stepped.
    pub now: u64,
    /// The commands answered.
    pub commands: u64,
    /// The events held.
    pub events: u64,
}
