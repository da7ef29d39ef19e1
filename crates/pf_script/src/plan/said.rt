use crate::line::Line;
use crate::record::ScriptSettings;
use pf_vocabulary::names::name::Name;
use pf_vocabulary::names::slot_length::SlotLength;

/// What a record after the heading says: names of tasks and labels of events are put in place of by their numbers.
#[derive(Drop)]
pub enum Said {
    /// The settings.
    Settings(ScriptSettings),
    /// How long a slot is.
    Slot(SlotLength),
    /// This task has this name.
    Name(u64, Name),
    /// After the settings, what a desk is asked for, and the label of the event that is inserted.
    Asks(Line, Option<Name>),
}
