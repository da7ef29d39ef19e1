use pf_courses::quantum::Quantum;
use pf_courses::window::Window;

/// The quantum of a subtask, as a picture shows it.
#[derive(Clone, Copy)]
pub struct Turn {
    /// The place of its task among those shown, from 0, if it is shown.
    pub place: Option<u64>,
    /// The number of the subtask, from 1.
    pub sub: u64,
    /// The subtask's window.
    pub window: Window,
    /// Where it ran.
    pub quantum: Quantum,
}
