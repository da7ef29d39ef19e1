use crate::list::column::Column;
use crate::list::time::TimeFault;

/// Why a row is no heading. Fields are counted from 1.
#[derive(Clone, Copy)]
pub enum HeadingFault {
    /// The field of this number names no column.
    NoColumn(usize),
    /// The field of this number names this column, as one before it does.
    Twice(usize, Column),
    /// No field names this column; the next one would have this number.
    Missing(usize, Column),
}

/// Why a row is no task.
#[derive(Clone, Copy)]
pub enum TaskFault {
    /// It has only so many fields, fewer than the heading.
    TooFew(usize),
    /// It has more fields than the heading, which has so many.
    TooMany(usize),
    /// The field of the name is none.
    NoName,
    /// The task of this line has the name.
    NameTaken(u64),
    /// The field of this column is no time that it may have.
    Time(Column, TimeFault),
    /// The deadline is above the time between two jobs.
    LateDeadline,
}

/// What a file is that is no list of tasks.
#[derive(Clone, Copy)]
pub enum FileFault {
    /// Its first bytes are those of UTF-16.
    Utf16,
    /// It has control characters.
    NoText,
    /// It has no byte.
    Empty,
    /// It has no row.
    NoRecord,
    /// It is a script or a plan.
    NoList,
}
