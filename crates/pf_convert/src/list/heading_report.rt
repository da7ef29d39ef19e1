ghost use Rattle.std.specs.Prelude.{◌≡◌, ◌++◌, OnOk, IfOk, codes};
ghost use Rattle.csv.specs.Records.{fields_of};
ghost use Rattle.pf_text.specs.Quoted.{quoted};
ghost use Rattle.pf_text.specs.Rows.Rows.{Row};
ghost use Rattle.pf_convert.specs.List.Faults.{heading_hint, heading_message, heading_number, heading_reason, twice_reason};

use crate::list::column::{Column, is_word};
use crate::list::fault::HeadingFault;
use crate::list::heading::field_of;
use crate::list::hints::push_column_hint;
use crate::list::message::Message;
use crate::list::parts::{Part, push_parts};
use crate::list::place::Place;
use csv::ByteRecord;
use std::alloc::{AllocError, Global};

/// The message of a row of this line that is no heading.
///
/// # Errors
///
/// Where memory is refused.
pub fn heading_message(
    alloc: Global,
    line: u64,
    row: &ByteRecord,
    fault: HeadingFault,
) -> Result<Message, AllocError>
    ensures { IfOk result (λ message. message ≡ heading_message (record { line = line; fields = fields_of row.now }) fault) }
{
    let mut text = Vec::new(alloc);
    push_heading_reason(&mut text, row, fault)?;
    let mut hint = Vec::new(alloc);
    push_heading_hint(alloc, &mut hint, row, fault)?;
    let number = heading_number(fault);
    Ok(Message {
        place: Place::Field { line, number },
        text,
        hint,
    })
}

/// The number of the field that is at fault.
fn heading_number(fault: HeadingFault) -> usize
    ensures { result ≡ heading_number fault }
{
    match fault {
        HeadingFault::NoColumn(number) => number,
        HeadingFault::Twice(number, _) => number,
        HeadingFault::Missing(number, _) => number,
    }
}

/// Adds why a row is no heading.
#[tactic(auto, unfolding(crate::specs::List::Faults::heading_reason))]
fn push_heading_reason(
    text: &mut Vec<u8>,
    row: &ByteRecord,
    fault: HeadingFault,
) -> Result<(), AllocError>
    ensures { OnOk result (text.new.items ≡ text.old.items ++ heading_reason (fields_of row.now) fault) }
{
    match fault {
        HeadingFault::NoColumn(number) => push_parts(
            text,
            &[
                Part::Quoted(field_of(row, number.saturating_sub(1))),
                Part::Words(" is no column: name, work, every, deadline, first, early"),
            ],
        ),
        HeadingFault::Twice(number, column) => {
            push_twice_reason(text, field_of(row, number.saturating_sub(1)), column)
        }
        HeadingFault::Missing(_, column) => push_missing(text, column.word()),
    }
}

/// Adds that no field names a column.
fn push_missing(text: &mut Vec<u8>, column: &str) -> Result<(), AllocError>
    ensures { OnOk result (text.new.items ≡ text.old.items ++ (codes "the column " ++ column.now ++ codes " is missing")) }
{
    push_parts(
        text,
        &[
            Part::Words("the column "),
            Part::Words(column),
            Part::Words(" is missing"),
        ],
    )
}

/// Adds that a field names a column that one before it names.
fn push_twice_reason(text: &mut Vec<u8>, field: &[u8], column: Column) -> Result<(), AllocError>
    ensures { OnOk result (text.new.items ≡ text.old.items ++ twice_reason field.now column) }
{
    let word = column.word();
    if is_word(field, word) {
        return push_parts(text, &[Part::Quoted(field), Part::Words(" stands twice")]);
    }
    push_twice_as(text, field, word)
}

/// Adds that a field is another name of a column that one before it names.
fn push_twice_as<'a>(text: &mut Vec<u8>, field: &'a [u8], column: &'a str) -> Result<(), AllocError>
    ensures { OnOk result (text.new.items ≡ text.old.items ++ (quoted field.now ++ codes " stands twice, as " ++ column.now)) }
{
    push_parts(
        text,
        &[
            Part::Quoted(field),
            Part::Words(" stands twice, as "),
            Part::Words(column),
        ],
    )
}

/// Adds what would be right in place of the field of a heading that is at fault.
fn push_heading_hint(
    alloc: Global,
    text: &mut Vec<u8>,
    row: &ByteRecord,
    fault: HeadingFault,
) -> Result<(), AllocError>
    ensures { OnOk result (text.new.items ≡ text.old.items ++ heading_hint (fields_of row.now) fault) }
{
    match fault {
        HeadingFault::NoColumn(number) => {
            push_column_hint(alloc, text, field_of(row, number.saturating_sub(1)))
        }
        HeadingFault::Twice(_, _) | HeadingFault::Missing(_, _) => Ok(()),
    }
}
