ghost use Rattle.std.specs.Prelude.{◌≡◌, ◌++◌, string_bytes, IfOk, OnOk};
ghost use Rattle.pf_place.specs.Lent.{lent_row};
ghost use Rattle.pf_why_text.specs.Head.{head_text, load_text, place_text, places_text, sitter_text, slot_text};

use crate::answer::subtask_words;
use pf_order::pick::Pick;
use pf_place::row_view::RowView;
use pf_vocabulary::names::names::Names;
use pf_why::point::Point;
use std::alloc::{AllocError, Global};

/// The slot and the processors in use.
fn slot_words(alloc: Global, point: Point) -> Result<String, AllocError>
    ensures { IfOk result (λ words. string_bytes words ≡ slot_text point) }
{
    format!(in alloc;
        "slot {} of {}: processors in use {} of {}",
        point.slot, point.now, point.count, point.processors
    )
}

/// Load and room, and how many subtasks may run.
fn load_words(alloc: Global, point: Point, many: u64) -> Result<String, AllocError>
    ensures { IfOk result (λ words. string_bytes words ≡ load_text point many) }
{
    format!(in alloc;
        ", base {}, load {}, room {}, subtasks that may run {many}\n",
        point.base, point.load, point.room
    )
}

/// The line of a slot in which so many subtasks may run: the processors in use, load and room.
///
/// # Errors
///
/// Where memory is refused.
pub fn head_line(alloc: Global, point: Point, many: u64) -> Result<String, AllocError>
    ensures { IfOk result (λ line. string_bytes line ≡ head_text point many) }
{
    let slot = slot_words(alloc, point)?;
    let load = load_words(alloc, point, many)?;
    format!(in alloc; "{slot}{load}")
}

/// Who sits on a processor that is in use.
fn sitter_words(alloc: Global, names: &Names, sitter: Option<Pick>) -> Result<String, AllocError>
    ensures { IfOk result (λ words. string_bytes words ≡ sitter_text names.now sitter) }
{
    match sitter {
        None => format!(in alloc; "idle"),
        Some(pick) => subtask_words(alloc, names, u64::from(pick.task), u64::from(pick.sub)),
    }
}

/// The line of a processor, where those below `count` are in use.
fn place_line(
    alloc: Global,
    names: &Names,
    count: u64,
    processor: u32,
    sitter: Option<Pick>,
) -> Result<String, AllocError>
    ensures { IfOk result (λ line. string_bytes line ≡ place_text names.now count processor sitter) }
{
    if u64::from(processor) >= count {
        return format!(in alloc; "p{processor}: out of use\n");
    }
    let words = sitter_words(alloc, names, sitter)?;
    format!(in alloc; "p{processor}: {words}\n")
}

/// Adds the lines of so many processors, of which those below `count` are in use: who sits on each in a row.
///
/// # Errors
///
/// Where memory is refused: a front of them was added.
pub fn push_places(
    alloc: Global,
    text: &mut Vec<u8>,
    names: &Names,
    count: u64,
    processors: u32,
    row: RowView<'_>,
) -> Result<(), AllocError>
    ensures { OnOk result (text.new.items ≡ text.old.items ++ places_text names.now count processors (lent_row row.entry)) }
{
    for processor in 0..processors {
        let line = place_line(alloc, names, count, processor, row.get(processor))?;
        text.extend_from_slice(line.as_bytes())?;
    }
    Ok(())
}
