ghost use Rattle.std.specs.Prelude.{◌<◌, length, IfSome};

use crate::soak::fault::Fault;
use crate::soak::replay::MOST_PROCESSORS;
use pf_board::quantum::Quantum;
use pf_desk::entry_view::EntryView;
use pf_desk::history::History;
use pf_desk::reply_view::ReplyView;
use pf_place::row_view::RowView;
use std::alloc::{AllocError, Global};

/// Lists the quanta of a slot's row.
fn list_row(quanta: &mut Vec<Quantum>, slot: u64, row: RowView<'_>) -> Result<(), AllocError> {
    for processor in 0..MOST_PROCESSORS {
        if let Some(pick) = row.get(processor) {
            quanta.push(Quantum {
                slot,
                processor,
                task: pick.task,
                sub: pick.sub,
            })?;
        }
    }
    Ok(())
}

/// Lists the quanta of the row that was answered, where one was.
fn list_entry(quanta: &mut Vec<Quantum>, entry: EntryView<'_>) -> Result<(), AllocError> {
    match entry.reply {
        ReplyView::Stepped { slot, row } => list_row(quanta, slot, row),
        _ => Ok(()),
    }
}

/// The quanta of all rows that were answered.
fn list_all(alloc: Global, history: &History) -> Result<Vec<Quantum>, AllocError> {
    let mut quanta = Vec::new(alloc);
    for k in 0..history.len() {
        if let Some(entry) = history.entry(k) {
            list_entry(&mut quanta, entry)?;
        }
    }
    Ok(quanta)
}

/// Where the quantum is listed.
fn find(quanta: &[Quantum], wanted: Quantum) -> Option<usize>
    ensures { IfSome result (λ at. at < length quanta.now) }
{
    quanta.iter().position(|quantum| *quantum == wanted)
}

/// Strikes these quanta from those that were issued and not yet struck.
fn strike_all(issued: &mut Vec<Quantum>, quanta: &[Quantum]) -> Result<(), Fault> {
    for quantum in quanta {
        match find(issued, *quantum) {
            Some(at) => {
                let _ = issued.swap_remove(at);
            }
            None => return Err(Fault::Twice(*quantum)),
        }
    }
    Ok(())
}

/// Whether the quanta that were got and those that are left are those that the history issued, each once. The answer is the
/// number of these.
pub(crate) fn account(
    alloc: Global,
    history: &History,
    got: &[Quantum],
    left: &[Quantum],
) -> Result<usize, Fault> {
    let Ok(mut issued) = list_all(alloc, history) else {
        return Err(Fault::NoMemory);
    };
    let count = issued.len();
    strike_all(&mut issued, got)?;
    strike_all(&mut issued, left)?;
    match issued.first() {
        Some(quantum) => Err(Fault::Lost(*quantum)),
        None => Ok(count),
    }
}
