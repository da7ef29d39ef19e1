ghost use Rattle.std.specs.Prelude.{◌≡◌, [], ◌∷◌, ◌++◌, IfOk, OnOk, codes};
ghost use Rattle.pf_convert.specs.declared.slot_fault.SlotFault.TheVariants.{DueTooSoon};
ghost use Rattle.pf_convert.specs.List.Heading.{column_word};
ghost use Rattle.pf_convert.specs.List.Parts.{joined};
ghost use Rattle.pf_convert.specs.Conversion.PlanFaults.{below_words, column_of, column_place, excess_text, fault_message, fault_messages, fault_place, fault_words, place_text, position_text, slot_reason};

use crate::conversion::list_file::ListFile;
use crate::list::column::Column;
use crate::list::heading::Heading;
use crate::list::message::Message;
use crate::list::messages::Messages;
use crate::list::parts::{Part, push_parts};
use crate::list::place::Place;
use crate::plan_fault::PlanFault;
use crate::slot_fault::SlotFault;
use crate::timed::Timed;
use crate::words::arrivals::Arrivals;
use pf_message::position::{Position, field_position};
use pf_scenario::limits::MOST_EARLY;
use pf_scenario::settings::WIDE_HORIZON;
use pf_vocabulary::names::unit::Unit;
use std::alloc::{AllocError, Global};

/// The messages of a quantum's faults.
///
/// # Errors
///
/// Where memory is refused.
pub fn fault_messages(
    alloc: Global,
    file: &ListFile<'_>,
    arrivals: Arrivals,
    quantum: u64,
    faults: &[PlanFault],
) -> Result<Messages, AllocError>
    ensures { IfOk result (λ messages. messages ≡ fault_messages file.now arrivals quantum faults.now) }
{
    let mut messages = Messages::new(alloc);
    for fault in faults {
        let message = fault_message(alloc, file, arrivals, quantum, &[], &[], *fault)?;
        messages.push(message)?;
    }
    Ok(messages)
}

/// The message of a fault, with these words before what is wrong, and these after it.
///
/// # Errors
///
/// Where memory is refused.
pub fn fault_message(
    alloc: Global,
    file: &ListFile<'_>,
    arrivals: Arrivals,
    quantum: u64,
    before: &[u8],
    after: &[u8],
    fault: PlanFault,
) -> Result<Message, AllocError>
    ensures { IfOk result (λ message. message ≡ fault_message file.now arrivals quantum before.now after.now fault) }
{
    let mut text = Vec::new(alloc);
    push_message(
        &mut text, file.unit, arrivals, quantum, before, after, fault,
    )?;
    Ok(Message {
        place: fault_place(file.heading, fault),
        text,
        hint: Vec::new(alloc),
    })
}

/// Adds the text of that message.
fn push_message(
    text: &mut Vec<u8>,
    unit: Unit,
    arrivals: Arrivals,
    quantum: u64,
    before: &[u8],
    after: &[u8],
    fault: PlanFault,
) -> Result<(), AllocError>
    ensures { OnOk result (text.new.items ≡ text.old.items ++ (before.now ++ fault_words unit arrivals quantum fault ++ after.now)) }
{
    text.extend_from_slice(before)?;
    push_words(text, unit, arrivals, quantum, fault)?;
    text.extend_from_slice(after)
}

/// Where a fault is.
pub fn fault_place(heading: Heading, fault: PlanFault) -> Place
    ensures { result ≡ fault_place heading fault }
{
    match fault {
        PlanFault::Task { line, times, fault } => {
            column_place(heading, line, column_of(times, fault))
        }
        PlanFault::NoBase => Place::File,
    }
}

/// Where the field of a column is, in the record that begins on this line.
fn column_place(heading: Heading, line: u64, column: Column) -> Place
    ensures { result ≡ column_place heading line column }
{
    Place::Field {
        line,
        number: heading.number(column),
    }
}

/// Adds the position of a place in a list of these bytes, without the name of the file.
///
/// # Errors
///
/// Where memory is refused: a front of it was added.
pub fn push_place(text: &mut Vec<u8>, list: &[u8], place: Place) -> Result<(), AllocError>
    ensures { OnOk result (text.new.items ≡ text.old.items ++ place_text list.now place) }
{
    match place {
        Place::Field { line, number } => {
            push_position(text, field_position(list, line, number, true))
        }
        Place::File | Place::Start | Place::End { .. } => Ok(()),
    }
}

/// Adds a position.
fn push_position(text: &mut Vec<u8>, position: Position) -> Result<(), AllocError>
    ensures { OnOk result (text.new.items ≡ text.old.items ++ position_text position) }
{
    push_parts(
        text,
        &[
            Part::Number(position.line),
            Part::Words(":"),
            Part::Number(position.column),
            Part::Words(": "),
        ],
    )
}

/// Adds a fault without its place.
///
/// # Errors
///
/// Where memory is refused: a front of it was added.
pub fn push_words(
    text: &mut Vec<u8>,
    unit: Unit,
    arrivals: Arrivals,
    quantum: u64,
    fault: PlanFault,
) -> Result<(), AllocError>
    ensures { OnOk result (text.new.items ≡ text.old.items ++ fault_words unit arrivals quantum fault) }
{
    match fault {
        PlanFault::Task { times, fault, .. } => {
            push_column(text, column_of(times, fault))?;
            push_slot_reason(text, unit, arrivals, quantum, times, fault)
        }
        PlanFault::NoBase => text.extend_from_slice(b"no base up to 1073741824 holds all tasks"),
    }
}

/// Adds the name of a column at fault.
fn push_column(text: &mut Vec<u8>, column: Column) -> Result<(), AllocError>
    ensures { OnOk result (text.new.items ≡ text.old.items ++ joined (column_word column ∷ codes ": " ∷ [])) }
{
    push_parts(text, &[Part::Words(column.word()), Part::Words(": ")])
}

/// The column at fault.
fn column_of(times: Timed, fault: SlotFault) -> Column
    ensures { result ≡ column_of times fault }
{
    match fault {
        SlotFault::DueTooSoon => match times.deadline {
            Some(_) => Column::Deadline,
            None => Column::Every,
        },
        SlotFault::CostAbovePeriod { .. } => Column::Work,
        SlotFault::JoinBeyondHorizon { .. } => Column::First,
        SlotFault::TooEarly { .. } | SlotFault::BeforeArrival => Column::Early,
    }
}

/// Adds why a task has no slots.
fn push_slot_reason(
    text: &mut Vec<u8>,
    unit: Unit,
    arrivals: Arrivals,
    quantum: u64,
    times: Timed,
    fault: SlotFault,
) -> Result<(), AllocError>
    ensures { OnOk result (text.new.items ≡ text.old.items ++ slot_reason unit arrivals quantum times fault) }
{
    match fault {
        SlotFault::DueTooSoon => push_short(text, unit, arrivals, quantum, times),
        SlotFault::CostAbovePeriod { cost, period } => {
            push_excess(text, "", cost, " quanta are above the period of ", period)
        }
        SlotFault::JoinBeyondHorizon { join } => {
            let not_below = " is not below the horizon ";
            push_excess(text, "slot ", join, not_below, WIDE_HORIZON)
        }
        SlotFault::TooEarly { early } => {
            push_excess(text, "", early, " slots are above ", MOST_EARLY)
        }
        SlotFault::BeforeArrival => {
            text.extend_from_slice(
                b"a quantum would run before its job arrives, with --arrivals any it is below a quantum",
            )
        }
    }
}

/// Adds that a job is due too soon.
fn push_short(
    text: &mut Vec<u8>,
    unit: Unit,
    arrivals: Arrivals,
    quantum: u64,
    times: Timed,
) -> Result<(), AllocError>
    ensures { OnOk result (text.new.items ≡ text.old.items ++ slot_reason unit arrivals quantum times DueTooSoon) }
{
    let due = u128::from(times.due());
    let length = u128::from(quantum);
    push_parts(
        text,
        &[
            Part::Time(unit, due),
            Part::Words(below_words(arrivals)),
            Part::Time(unit, length),
        ],
    )
}

/// What is told of a time that is below a quantum, or below two where one may pass before the release.
fn below_words(arrivals: Arrivals) -> &'static str
    ensures { result.now ≡ below_words arrivals }
{
    match arrivals {
        Arrivals::Aligned => " is below the quantum ",
        Arrivals::Any => " is below 2 quanta of ",
    }
}

/// Adds which number is above its limit.
fn push_excess<'a>(
    text: &mut Vec<u8>,
    before: &'a str,
    number: u64,
    above: &'a str,
    limit: u64,
) -> Result<(), AllocError>
    ensures { OnOk result (text.new.items ≡ text.old.items ++ excess_text before.now number above.now limit) }
{
    push_parts(
        text,
        &[
            Part::Words(before),
            Part::Number(number),
            Part::Words(above),
            Part::Number(limit),
        ],
    )
}
