ghost use Rattle.std.specs.Prelude.{◌≡◌, ◌++◌, IfOk, OnOk};
ghost use Rattle.pf_convert.specs.List.Messages.{messages_text};
ghost use Rattle.pf_convert.specs.Conversion.PlanFaults.{fault_message};
ghost use Rattle.pf_convert.specs.Conversion.Notes.{more_words, no_quantum_line, notes_in, notes_of, quantum_words, series_notes};

use crate::conversion::list_file::ListFile;
use crate::conversion::plan_faults::fault_message;
use crate::conversion::planned::Planned;
use crate::conversion::tried::shortest_time;
use crate::list::listed::Listed;
use crate::list::message::Message;
use crate::list::messages::Messages;
use crate::list::parts::{Part, push_parts};
use crate::plan_fault::PlanFault;
use crate::words::arrivals::Arrivals;
use pf_message::form::push_file_front;
use pf_vocabulary::names::unit::Unit;
use std::alloc::{AllocError, Global};

/// What is told of several quanta: a message for each that has no plan, of its first fault and how many more it has; where there
/// are no quanta, that none could be tried.
///
/// # Errors
///
/// Where memory is refused.
pub fn series_notes(
    alloc: Global,
    file: &ListFile<'_>,
    arrivals: Arrivals,
    tasks: &[Listed],
    all: &[Planned],
) -> Result<Vec<u8>, AllocError>
    ensures { IfOk result (λ notes. notes.items ≡ series_notes file.now arrivals tasks.now all.now) }
{
    let mut notes = Vec::new(alloc);
    if all.is_empty() {
        push_no_quantum(&mut notes, file, tasks)?;
    } else {
        push_notes(alloc, &mut notes, file, arrivals, all)?;
    }
    Ok(notes)
}

/// Adds the messages of quanta.
fn push_notes(
    alloc: Global,
    text: &mut Vec<u8>,
    file: &ListFile<'_>,
    arrivals: Arrivals,
    all: &[Planned],
) -> Result<(), AllocError>
    ensures { OnOk result (text.new.items ≡ text.old.items ++ messages_text file.now.name.now file.now.text.now (notes_in file.now arrivals all.now)) }
{
    notes_in(alloc, file, arrivals, all)?.push_to(text, file.name, file.text)
}

/// Adds the line that tells that no quantum could be tried.
///
/// # Errors
///
/// Where memory is refused: a front of it was added.
pub fn push_no_quantum(
    text: &mut Vec<u8>,
    file: &ListFile<'_>,
    tasks: &[Listed],
) -> Result<(), AllocError>
    ensures { OnOk result (text.new.items ≡ text.old.items ++ no_quantum_line file.now tasks.now) }
{
    let shortest = u128::from(shortest_time(tasks));
    push_file_front(text, file.name)?;
    push_parts(
        text,
        &[
            Part::Words("no quantum is above the switch and up to the shortest time, "),
            Part::Time(file.unit, shortest),
            Part::Words("\n"),
        ],
    )
}

/// The messages of quanta that have no plan.
fn notes_in(
    alloc: Global,
    file: &ListFile<'_>,
    arrivals: Arrivals,
    all: &[Planned],
) -> Result<Messages, AllocError>
    ensures { IfOk result (λ notes. notes ≡ notes_in file.now arrivals all.now) }
{
    let mut notes = Messages::new(alloc);
    for planned in all {
        let quantum = planned.quantum.length;
        push_note(alloc, &mut notes, file, arrivals, quantum, &planned.faults)?;
    }
    Ok(notes)
}

/// Adds the message of a quantum, where it has faults.
fn push_note(
    alloc: Global,
    notes: &mut Messages,
    file: &ListFile<'_>,
    arrivals: Arrivals,
    quantum: u64,
    faults: &[PlanFault],
) -> Result<(), AllocError>
    ensures { OnOk result (notes.new ≡ notes.old ++ notes_of file.now arrivals quantum faults.now) }
{
    let count = faults.len();
    if count == 0 {
        return Ok(());
    }
    let message = first_message(alloc, file, arrivals, quantum, faults[0], count - 1)?;
    notes.push(message)
}

/// The message of the first fault of a quantum, which has so many more.
fn first_message(
    alloc: Global,
    file: &ListFile<'_>,
    arrivals: Arrivals,
    quantum: u64,
    first: PlanFault,
    more: usize,
) -> Result<Message, AllocError>
    ensures { IfOk result (λ message. message ≡ fault_message file.now arrivals quantum (quantum_words file.now.unit quantum) (more_words more) first) }
{
    let before = quantum_words(alloc, file.unit, quantum)?;
    let after = more_words(alloc, more)?;
    fault_message(alloc, file, arrivals, quantum, &before, &after, first)
}

/// What stands before the first fault of a quantum.
fn quantum_words(alloc: Global, unit: Unit, quantum: u64) -> Result<Vec<u8>, AllocError>
    ensures { IfOk result (λ words. words.items ≡ quantum_words unit quantum) }
{
    let length = u128::from(quantum);
    let mut words = Vec::new(alloc);
    push_parts(
        &mut words,
        &[
            Part::Words("quantum "),
            Part::Time(unit, length),
            Part::Words(": "),
        ],
    )?;
    Ok(words)
}

/// What stands after it, where there are so many more.
fn more_words(alloc: Global, more: usize) -> Result<Vec<u8>, AllocError>
    ensures { IfOk result (λ words. words.items ≡ more_words more) }
{
    let mut words = Vec::new(alloc);
    if more > 0 {
        push_parts(
            &mut words,
            &[
                Part::Words(", and "),
                Part::Number(more as u64),
                Part::Words(" more"),
            ],
        )?;
    }
    Ok(words)
}
