use crate::margins::margin::Margin;
use crate::slotted::Slotted;
use crate::timed::Timed;

/// A task of a list that has a plan.
#[derive(Clone, Copy)]
pub struct ShownTask<'a> {
    /// Its name.
    pub name: &'a [u8],
    /// Its times.
    pub times: Timed,
    /// It in slots, as the plan has it.
    pub slots: Slotted,
    /// How far its numbers may go.
    pub margin: Margin,
}
