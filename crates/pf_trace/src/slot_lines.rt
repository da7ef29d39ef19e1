ghost use Rattle.std.specs.Prelude.{◌≡◌, ◌++◌, ◌+◌, ◌<◌, OnOk};
ghost use Rattle.pf_place.specs.Lent.{lent_row};
ghost use Rattle.pf_trace.specs.Lines.{units_line};
ghost use Rattle.pf_trace.specs.Runs.{row_lines, seat_lines, sitter_lines, trace_at};

use crate::form::push_filled;
use crate::task_trace::TaskTrace;
use crate::title::Title;
use pf_collections::table::lists::Lists;
use pf_order::pick::Pick;
use pf_place::row_view::RowView;
use pf_tally::level::Level;
use std::alloc::AllocError;

/// Adds load and room, at a slot in which one of them changes.
pub(crate) fn push_units(text: &mut Vec<u8>, title: &Title, level: Level) -> Result<(), AllocError>
    ensures { OnOk result (text.new.items ≡ text.old.items ++ units_line title.now level) }
{
    push_filled(
        text,
        title,
        b",\n{\"args\":{\"load\":#,\"room\":#},\"name\":\"units\",\"ph\":\"C\",\"pid\":1,\"ts\":@}",
        &[level.load, level.room, level.slot],
    )
}

/// Adds the quantum that a task has in slot t on a processor.
fn push_seat(
    text: &mut Vec<u8>,
    trace: &TaskTrace,
    processor: u32,
    t: u64,
) -> Result<(), AllocError>
    ensures { OnOk result (text.new.items ≡ text.old.items ++ seat_lines processor t trace.now) }
{
    let Some(course) = trace.course() else {
        return Ok(());
    };
    let Some(window) = course.running(t) else {
        return Ok(());
    };
    let task = course.task().task;
    push_filled(
        text,
        trace.title(),
        b",\n{\"args\":{\"sub\":#,\"task\":#,\"window\":[#,#]},\"cat\":\"quantum\",\"dur\":@,\"name\":\"$\",\"ph\":\"X\",\"pid\":1,\"tid\":#,\"ts\":@}",
        &[
            window.sub,
            task,
            window.release,
            window.deadline,
            1,
            task,
            1 + u64::from(processor),
            t,
        ],
    )
}

/// Adds the quantum of who sits on a processor in slot t.
fn push_sitter(
    text: &mut Vec<u8>,
    tasks: &Lists<TaskTrace>,
    sitter: Option<Pick>,
    processor: u32,
    t: u64,
) -> Result<(), AllocError>
    ensures { OnOk result (text.new.items ≡ text.old.items ++ sitter_lines (trace_at tasks.now) t processor sitter) }
{
    let Some(pick) = sitter else {
        return Ok(());
    };
    match tasks.get(u64::from(pick.task)).first() {
        Some(trace) => push_seat(text, trace, processor, t),
        None => Ok(()),
    }
}

/// Adds the quanta of a row, by processor.
pub(crate) fn push_row(
    text: &mut Vec<u8>,
    tasks: &Lists<TaskTrace>,
    row: RowView<'_>,
    processors: u32,
    t: u64,
) -> Result<(), AllocError>
    ensures { OnOk result (text.new.items ≡ text.old.items ++ row_lines (trace_at tasks.now) t processors (lent_row row.entry)) }
{
    for processor in 0..processors {
        push_sitter(text, tasks, row.get(processor), processor, t)?;
    }
    Ok(())
}
