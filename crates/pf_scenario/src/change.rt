use crate::event::Event;

/// A change to a scenario's events.
#[derive(Clone, Copy, Debug, PartialEq, Eq)]
pub enum Change {
    /// A new event, which gets the next number.
    Insert(Event),
    /// The event takes the place of the one of this number.
    Alter(u64, Event),
    /// The event of this number is taken out.
    Strike(u64),
}
