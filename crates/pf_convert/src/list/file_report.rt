ghost use Rattle.std.specs.Prelude.{◌≡◌, ◌++◌, OnOk, IfOk};
ghost use Rattle.pf_convert.specs.List.Faults.{file_hint, file_message, file_reason, no_task_message, too_many_message};

use crate::list::fault::FileFault;
use crate::list::heading::push_names;
use crate::list::hints::push_fit_hint;
use crate::list::list_head::ListHead;
use crate::list::message::Message;
use crate::list::parts::{Part, push_parts};
use crate::list::place::Place;
use pf_weight::task::LARGEST_TASK;
use std::alloc::{AllocError, Global};

/// The message of a list without tasks, which ends on this line.
///
/// # Errors
///
/// Where memory is refused.
pub fn no_task_message(alloc: Global, head: &ListHead, line: u64) -> Result<Message, AllocError>
    ensures { IfOk result (λ message. message ≡ no_task_message head.now line) }
{
    let mut hint = Vec::new(alloc);
    push_names(&mut hint, &head.names)?;
    Ok(Message {
        place: Place::End { line },
        text: Vec::from_slice(alloc, b"a task is expected")?,
        hint,
    })
}

/// The message of the row, of this line, after as many tasks as there may be.
///
/// # Errors
///
/// Where memory is refused.
pub fn too_many_message(alloc: Global, line: u64) -> Result<Message, AllocError>
    ensures { IfOk result (λ message. message ≡ too_many_message line) }
{
    let mut text = Vec::new(alloc);
    push_parts(
        &mut text,
        &[
            Part::Number(LARGEST_TASK),
            Part::Words(" tasks are the most"),
        ],
    )?;
    Ok(Message {
        place: Place::Field { line, number: 1 },
        text,
        hint: Vec::new(alloc),
    })
}

/// The message of a file of this name that is no list.
///
/// # Errors
///
/// Where memory is refused.
pub fn file_message(alloc: Global, file: &[u8], fault: FileFault) -> Result<Message, AllocError>
    ensures { IfOk result (λ message. message ≡ file_message file.now fault) }
{
    let mut hint = Vec::new(alloc);
    push_file_hint(&mut hint, file, fault)?;
    Ok(Message {
        place: Place::Start,
        text: Vec::from_slice(alloc, file_reason(fault).as_bytes())?,
        hint,
    })
}

/// Why a file is no list.
fn file_reason(fault: FileFault) -> &'static str
    ensures { result.now ≡ file_reason fault }
{
    match fault {
        FileFault::Utf16 => "it is UTF-16 text",
        FileFault::NoText => "it is no text",
        FileFault::Empty => "it is empty",
        FileFault::NoRecord => "it has no record",
        FileFault::NoList => "it is no list of tasks",
    }
}

/// Adds what to do with it.
fn push_file_hint(text: &mut Vec<u8>, file: &[u8], fault: FileFault) -> Result<(), AllocError>
    ensures { OnOk result (text.new.items ≡ text.old.items ++ file_hint file.now fault) }
{
    match fault {
        FileFault::Utf16 => text.extend_from_slice(b"save it as UTF-8"),
        FileFault::NoList => push_fit_hint(text, file),
        FileFault::NoText | FileFault::Empty | FileFault::NoRecord => Ok(()),
    }
}
