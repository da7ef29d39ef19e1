/// Why a record is none of a plan's.
#[derive(Clone, Copy)]
pub enum Reason {
    /// Its word names no record.
    NoRecord,
    /// A field of the heading names no version of plans.
    NoVersion,
    /// The word after `strict` names no change.
    NoChange,
    /// The word after `alter,ID` or `label,TEXT` names no event.
    NoEvent,
    /// The settings have not come yet.
    NoSettings,
    /// The settings have come already.
    LateSettings,
    /// The length of a slot has come already, or a change or a step has.
    LateSlot,
    /// A field is no number.
    NoNumber,
    /// A field is no number and not `full`.
    NoCap,
    /// A number is not within 1 to `most`.
    Outside {
        /// The number.
        number: u64,
        /// The greatest that it may be.
        most: u64,
    },
    /// So many fields are expected.
    Fields(usize),
    /// So many fields are expected, or one more.
    JoinFields(usize),
    /// A step has one field or two.
    StepFields,
    /// Settings have three to five fields.
    SettingsFields,
    /// A field names no unit of time.
    NoUnit,
    /// This task has a name already.
    HasName(u64),
    /// A field can't be a name.
    NoName,
    /// A field is the name of this task already.
    NameOf(u64),
    /// A field names no task so far.
    NoTask,
    /// A field can't be a label.
    NoLabel,
    /// A field labels an event already.
    LabelTaken,
    /// A field labels no event so far.
    LabelUnknown,
}

/// What is wrong with a record.
#[derive(Clone, Copy)]
pub struct RecordFault {
    /// The field that is at fault, counted from 1. The first one names the record.
    pub field: usize,
    /// Why.
    pub reason: Reason,
}

/// A record that is none of a script's, or that a script lacks.
#[derive(Clone, Copy)]
pub struct BadRecord {
    /// Its number, counted from 1: the heading is 1.
    pub number: u64,
    /// The line of the file on which it begins, counted from 1.
    pub line: u64,
    /// What is wrong with it.
    pub fault: RecordFault,
}
