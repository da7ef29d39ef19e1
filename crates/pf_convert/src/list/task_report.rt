ghost use Rattle.std.specs.Prelude.{◌≡◌, ◌++◌, [], OnOk, IfOk, codes, slice_index_or};
ghost use Rattle.csv.specs.Records.{fields_of};
ghost use Rattle.pf_text.specs.Rows.Rows.{Row};
ghost use Rattle.pf_convert.specs.List.Heading.{column_word, joined_names};
ghost use Rattle.pf_convert.specs.List.Faults.{is_line_of, is_open_field, late_reason, name_taken_reason, no_name_reason, task_hint, task_message, task_number, task_reason, time_reason};

use crate::list::column::Column;
use crate::list::fault::TaskFault;
use crate::list::heading::{Heading, field_number, field_of, push_names};
use crate::list::hints::{QUOTE_HINT, push_name_hint, push_time_hint, surplus_hint};
use crate::list::list_head::ListHead;
use crate::list::message::Message;
use crate::list::parts::{Part, push_parts};
use crate::list::place::Place;
use crate::list::time::TimeFault;
use csv::ByteRecord;
use std::alloc::{AllocError, Global};

/// The message of a row of this line that is no task.
///
/// # Errors
///
/// Where memory is refused.
pub fn task_message(
    alloc: Global,
    head: &ListHead,
    line: u64,
    row: &ByteRecord,
    fault: TaskFault,
) -> Result<Message, AllocError>
    ensures { IfOk result (λ message. message ≡ task_message head.now (record { line = line; fields = fields_of row.now }) fault) }
{
    let mut text = Vec::new(alloc);
    push_task_reason(&mut text, head, row, fault)?;
    let mut hint = Vec::new(alloc);
    push_task_hint(alloc, &mut hint, head, line, row, fault)?;
    let number = task_number(&head.heading, fault);
    Ok(Message {
        place: Place::Field { line, number },
        text,
        hint,
    })
}

/// The number of the field that is at fault.
fn task_number(heading: &Heading, fault: TaskFault) -> usize
    ensures { result ≡ task_number heading.now fault }
{
    match fault {
        TaskFault::TooFew(count) => field_number(count),
        TaskFault::TooMany(count) => field_number(count),
        TaskFault::NoName | TaskFault::NameTaken(_) => heading.number(Column::Name),
        TaskFault::Time(column, _) => heading.number(column),
        TaskFault::LateDeadline => heading.number(Column::Deadline),
    }
}

/// Adds why a row is no task.
fn push_task_reason(
    text: &mut Vec<u8>,
    head: &ListHead,
    row: &ByteRecord,
    fault: TaskFault,
) -> Result<(), AllocError>
    ensures { OnOk result (text.new.items ≡ text.old.items ++ task_reason head.now (fields_of row.now) fault) }
{
    match fault {
        TaskFault::TooFew(count) => push_too_few(text, &head.names, count),
        TaskFault::TooMany(_) => push_too_many(text, &head.names),
        TaskFault::NoName => push_no_name(text, head.heading.field(Column::Name, row)),
        TaskFault::NameTaken(line) => {
            push_name_taken(text, head.heading.field(Column::Name, row), line)
        }
        TaskFault::Time(column, fault) => {
            push_bad_time(text, column, head.heading.field(column, row), fault)
        }
        TaskFault::LateDeadline => push_late_deadline(
            text,
            head.heading.field(Column::Deadline, row),
            head.heading.field(Column::Every, row),
        ),
    }
}

/// Adds which field of the heading is the first that a row has none for.
fn push_too_few(text: &mut Vec<u8>, names: &ByteRecord, count: usize) -> Result<(), AllocError>
    ensures { OnOk result (text.new.items ≡ text.old.items ++ (slice_index_or (fields_of names.now) count [] ++ codes " is missing: " ++ joined_names (fields_of names.now))) }
{
    push_parts(
        text,
        &[
            Part::Bytes(field_of(names, count)),
            Part::Words(" is missing: "),
        ],
    )?;
    push_names(text, names)
}

/// Adds that a row has a field too much.
fn push_too_many(text: &mut Vec<u8>, names: &ByteRecord) -> Result<(), AllocError>
    ensures { OnOk result (text.new.items ≡ text.old.items ++ (codes "a field too much: " ++ joined_names (fields_of names.now))) }
{
    text.extend_from_slice(b"a field too much: ")?;
    push_names(text, names)
}

/// Adds that a field is no name.
#[tactic(auto, unfolding(crate::specs::List::Faults::no_name_reason))]
fn push_no_name(text: &mut Vec<u8>, field: &[u8]) -> Result<(), AllocError>
    ensures { OnOk result (text.new.items ≡ text.old.items ++ (codes "name: " ++ no_name_reason field.now)) }
{
    push_parts(
        text,
        &[
            Part::Words("name: "),
            Part::Quoted(field),
            Part::Words(" is no name: a letter, then up to 23 letters, digits, spaces, _ - . +"),
        ],
    )
}

/// Adds that the task of a line has a name already.
#[tactic(auto, unfolding(crate::specs::List::Faults::name_taken_reason))]
fn push_name_taken(text: &mut Vec<u8>, field: &[u8], line: u64) -> Result<(), AllocError>
    ensures { OnOk result (text.new.items ≡ text.old.items ++ (codes "name: " ++ name_taken_reason field.now line)) }
{
    push_parts(
        text,
        &[
            Part::Words("name: "),
            Part::Quoted(field),
            Part::Words(" is the name of line "),
            Part::Number(line),
            Part::Words(" already"),
        ],
    )
}

/// Adds that a deadline is above the time between two jobs.
#[tactic(auto, unfolding(crate::specs::List::Faults::late_reason))]
fn push_late_deadline<'a>(
    text: &mut Vec<u8>,
    due: &'a [u8],
    every: &'a [u8],
) -> Result<(), AllocError>
    ensures { OnOk result (text.new.items ≡ text.old.items ++ (codes "deadline: " ++ late_reason due.now every.now)) }
{
    push_parts(
        text,
        &[
            Part::Words("deadline: "),
            Part::Quoted(due),
            Part::Words(" is above every, "),
            Part::Quoted(every),
        ],
    )
}

/// Adds why a field of a column is no time.
fn push_bad_time(
    text: &mut Vec<u8>,
    column: Column,
    field: &[u8],
    fault: TimeFault,
) -> Result<(), AllocError>
    ensures { OnOk result (text.new.items ≡ text.old.items ++ (column_word column ++ codes ": " ++ time_reason field.now fault)) }
{
    text.extend_from_slice(column.word().as_bytes())?;
    text.extend_from_slice(b": ")?;
    push_time_reason(text, field, fault)
}

/// Adds why a field is no time.
#[tactic(auto, unfolding(crate::specs::List::Faults::time_reason))]
fn push_time_reason(text: &mut Vec<u8>, field: &[u8], fault: TimeFault) -> Result<(), AllocError>
    ensures { OnOk result (text.new.items ≡ text.old.items ++ time_reason field.now fault) }
{
    let words = match fault {
        TimeFault::NoTime => {
            " is no time: up to 9 digits on each side of a point, and ns, us, ms, s or nothing"
        }
        TimeFault::TooFine => " is finer than a nanosecond",
        TimeFault::NoUnit => " has no unit, and other times have one",
        TimeFault::Zero => return text.extend_from_slice(b"a time above 0 is expected"),
    };
    push_parts(text, &[Part::Quoted(field), Part::Words(words)])
}

/// Adds what would be right in place of the field of a row that is at fault.
fn push_task_hint(
    alloc: Global,
    text: &mut Vec<u8>,
    head: &ListHead,
    line: u64,
    row: &ByteRecord,
    fault: TaskFault,
) -> Result<(), AllocError>
    ensures { OnOk result (text.new.items ≡ text.old.items ++ task_hint head.now (record { line = line; fields = fields_of row.now }) fault) }
{
    match fault {
        TaskFault::TooFew(_) if is_open_row(head, line) => {
            text.extend_from_slice(QUOTE_HINT.as_bytes())
        }
        TaskFault::TooMany(count) => {
            text.extend_from_slice(surplus_hint(field_of(row, count)).as_bytes())
        }
        TaskFault::NoName => {
            let is_open = is_open_field(head, line, row, Column::Name);
            push_name_hint(text, is_open, head.heading.field(Column::Name, row))
        }
        TaskFault::Time(column, fault) => {
            let is_open = is_open_field(head, line, row, column);
            push_time_hint(alloc, text, is_open, head.heading.field(column, row), fault)
        }
        TaskFault::TooFew(_) | TaskFault::NameTaken(_) | TaskFault::LateDeadline => Ok(()),
    }
}

/// Whether the list ends within the last quotes of the row of this line.
fn is_open_row(head: &ListHead, line: u64) -> bool
    ensures { result ≡ is_line_of head.now.open_line line }
{
    match head.open_line {
        Some(other) => other == line,
        None => false,
    }
}

/// Whether it ends within those of this column's field of a row.
fn is_open_field(head: &ListHead, line: u64, row: &ByteRecord, column: Column) -> bool
    ensures { result ≡ is_open_field head.now (record { line = line; fields = fields_of row.now }) column }
{
    is_open_row(head, line) && head.heading.number(column) == row.len()
}
