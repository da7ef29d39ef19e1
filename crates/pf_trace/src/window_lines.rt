ghost use Rattle.std.specs.Prelude.{◌≡◌, ◌++◌, ◌≤◌, OnOk};
ghost use Rattle.pf_weight.specs.declared.task.TheConstants.{LARGEST_TASK};
ghost use Rattle.pf_trace.specs.Lines.{missed_line, quantum_lines, window_line, window_lines};

use crate::form::push_filled;
use crate::title::Title;
use crate::track_names::window_track;
use pf_courses::window::Window;
use pf_courses::windows::{eligible_from, is_drawn, window_end};
use pf_tally::admitted::Admitted;
use std::alloc::AllocError;

/// Adds a window, up to its deadline, or to the slot of the task's leave, where that is before.
fn push_window(
    text: &mut Vec<u8>,
    title: &Title,
    task: Admitted,
    leave: Option<u64>,
    window: Window,
) -> Result<(), AllocError>
    requires { task.task ≤ LARGEST_TASK }
    ensures { OnOk result (text.new.items ≡ text.old.items ++ window_line title.now task leave window window.ran) }
{
    let eligible = eligible_from(task, window.release);
    let slots = window_end(window, leave).saturating_sub(window.release);
    let track = window_track(task.task, window.sub);
    match window.ran {
        Some(quantum) => push_filled(
            text,
            title,
            b",\n{\"args\":{\"bit\":#,\"eligible\":#,\"group\":#,\"ran\":#},\"cat\":\"window\",\"dur\":@,\"name\":\"%/#\",\"ph\":\"X\",\"pid\":2,\"tid\":#,\"ts\":@}",
            &[
                window.bit,
                eligible,
                window.group,
                quantum.slot,
                slots,
                task.task,
                window.sub,
                track,
                window.release,
            ],
        ),
        None => push_filled(
            text,
            title,
            b",\n{\"args\":{\"bit\":#,\"eligible\":#,\"group\":#,\"ran\":null},\"cat\":\"window\",\"dur\":@,\"name\":\"%/#\",\"ph\":\"X\",\"pid\":2,\"tid\":#,\"ts\":@}",
            &[
                window.bit,
                eligible,
                window.group,
                slots,
                task.task,
                window.sub,
                track,
                window.release,
            ],
        ),
    }
}

/// Adds that a window was missed, at its deadline.
fn push_missed(
    text: &mut Vec<u8>,
    title: &Title,
    task: Admitted,
    window: Window,
) -> Result<(), AllocError>
    requires { task.task ≤ LARGEST_TASK }
    ensures { OnOk result (text.new.items ≡ text.old.items ++ missed_line title.now task window window.ran) }
{
    let track = window_track(task.task, window.sub);
    match window.ran {
        Some(quantum) => push_filled(
            text,
            title,
            b",\n{\"args\":{\"ran\":#},\"cat\":\"missed\",\"name\":\"missed %/#\",\"ph\":\"i\",\"pid\":2,\"s\":\"t\",\"tid\":#,\"ts\":@}",
            &[quantum.slot, task.task, window.sub, track, window.deadline],
        ),
        None => push_filled(
            text,
            title,
            b",\n{\"args\":{\"ran\":null},\"cat\":\"missed\",\"name\":\"missed %/#\",\"ph\":\"i\",\"pid\":2,\"s\":\"t\",\"tid\":#,\"ts\":@}",
            &[task.task, window.sub, track, window.deadline],
        ),
    }
}

/// Adds a window where it is drawn, and after it that it was missed.
pub(crate) fn push_window_lines(
    text: &mut Vec<u8>,
    title: &Title,
    task: Admitted,
    end: u64,
    leave: Option<u64>,
    window: Window,
) -> Result<(), AllocError>
    requires { task.task ≤ LARGEST_TASK }
    ensures { OnOk result (text.new.items ≡ text.old.items ++ window_lines title.now task end leave window) }
{
    if !is_drawn(window, end) {
        return Ok(());
    }
    push_window(text, title, task, leave, window)?;
    if window.late {
        push_missed(text, title, task, window)?;
    }
    Ok(())
}

/// Adds the quantum of a window, named by its processor, if its subtask ran.
pub(crate) fn push_quantum(
    text: &mut Vec<u8>,
    title: &Title,
    task: u64,
    window: Window,
) -> Result<(), AllocError>
    requires { task ≤ LARGEST_TASK }
    ensures { OnOk result (text.new.items ≡ text.old.items ++ quantum_lines title.now task window) }
{
    let Some(quantum) = window.ran else {
        return Ok(());
    };
    push_filled(
        text,
        title,
        b",\n{\"args\":{\"sub\":#,\"task\":#,\"window\":[#,#]},\"cat\":\"quantum\",\"dur\":@,\"name\":\"p#\",\"ph\":\"X\",\"pid\":2,\"tid\":#,\"ts\":@}",
        &[
            window.sub,
            task,
            window.release,
            window.deadline,
            1,
            u64::from(quantum.processor),
            100 * task,
            quantum.slot,
        ],
    )
}
