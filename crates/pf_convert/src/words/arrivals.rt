/// When the jobs of a task arrive.
#[derive(Clone, Copy)]
pub enum Arrivals {
    /// Each as a slot begins.
    Aligned,
    /// At any time.
    Any,
}
