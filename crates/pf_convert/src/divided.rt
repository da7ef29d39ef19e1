/// A base with its divisors.
#[derive(Drop)]
pub struct Divided {
    pub base: u64,
    /// Rising.
    pub divisors: Vec<u64>,
}
