use crate::event::Event;

/// An event that a search by number found.
#[derive(Clone, Copy, Debug)]
pub struct Found {
    /// The event.
    pub event: Event,
    /// Where its card stands, so that the next search may look there first.
    pub at: usize,
}
