use pf_board::quantum::Quantum;
use pf_desk::desk::Desk;

/// What is left of a shared desk.
#[derive(Drop)]
pub struct Closed {
    /// The desk, with the history of all that was noted.
    pub desk: Desk,
    /// The quanta that nobody took, by processor.
    pub left: Vec<Quantum>,
}
