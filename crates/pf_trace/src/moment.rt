use pf_admit::denial::Denial;
use pf_scenario::event::Numbered;

/// An event of a task, and why it is denied where it is.
#[derive(Clone, Copy)]
pub struct Moment {
    /// The event.
    pub numbered: Numbered,
    /// Why it is denied.
    pub denial: Option<Denial>,
}
