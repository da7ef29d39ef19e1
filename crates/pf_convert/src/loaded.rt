/// A base, and what tasks ask for over it.
#[derive(Clone, Copy)]
pub struct Loaded {
    pub base: u64,
    /// In units of 1/base of a processor.
    pub load: u64,
}
