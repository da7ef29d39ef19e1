ghost use Rattle.std.specs.Prelude.{◌≡◌, ◌++◌, ◌≤◌, OnOk};
ghost use Rattle.pf_weight.specs.declared.task.TheConstants.{LARGEST_TASK};
ghost use Rattle.pf_trace.specs.Lines.{even_name, odd_name, track_name, track_names, window_track};

use crate::form::push_filled;
use crate::title::Title;
use std::alloc::AllocError;

/// The track of a subtask's window: one for odd and one for even ones.
pub(crate) fn window_track(task: u64, i: u64) -> u64
    requires { task ≤ LARGEST_TASK }
    ensures { result ≡ window_track task i }
{
    100 * task + 2 - i % 2
}

/// Adds the name of the track of a task's quanta and events, and its place.
fn push_track_name(text: &mut Vec<u8>, title: &Title, task: u64) -> Result<(), AllocError>
    requires { task ≤ LARGEST_TASK }
    ensures { OnOk result (text.new.items ≡ text.old.items ++ track_name title.now task) }
{
    let track = 100 * task;
    push_filled(
        text,
        title,
        b",\n{\"args\":{\"name\":\"$\"},\"name\":\"thread_name\",\"ph\":\"M\",\"pid\":2,\"tid\":#},\n{\"args\":{\"sort_index\":#},\"name\":\"thread_sort_index\",\"ph\":\"M\",\"pid\":2,\"tid\":#}",
        &[task, track, track, track],
    )
}

/// Adds the name of the track of its odd windows, and its place.
fn push_odd_name(text: &mut Vec<u8>, title: &Title, task: u64) -> Result<(), AllocError>
    requires { task ≤ LARGEST_TASK }
    ensures { OnOk result (text.new.items ≡ text.old.items ++ odd_name title.now task) }
{
    let track = window_track(task, 1);
    push_filled(
        text,
        title,
        b",\n{\"args\":{\"name\":\"$, odd windows\"},\"name\":\"thread_name\",\"ph\":\"M\",\"pid\":2,\"tid\":#},\n{\"args\":{\"sort_index\":#},\"name\":\"thread_sort_index\",\"ph\":\"M\",\"pid\":2,\"tid\":#}",
        &[task, track, track, track],
    )
}

/// Adds the name of the track of its even windows, and its place.
fn push_even_name(text: &mut Vec<u8>, title: &Title, task: u64) -> Result<(), AllocError>
    requires { task ≤ LARGEST_TASK }
    ensures { OnOk result (text.new.items ≡ text.old.items ++ even_name title.now task) }
{
    let track = window_track(task, 2);
    push_filled(
        text,
        title,
        b",\n{\"args\":{\"name\":\"$, even windows\"},\"name\":\"thread_name\",\"ph\":\"M\",\"pid\":2,\"tid\":#},\n{\"args\":{\"sort_index\":#},\"name\":\"thread_sort_index\",\"ph\":\"M\",\"pid\":2,\"tid\":#}",
        &[task, track, track, track],
    )
}

/// Adds the names of a task's tracks: of one that was never admitted the first alone.
pub(crate) fn push_track_names(
    text: &mut Vec<u8>,
    title: &Title,
    task: u64,
    is_admitted: bool,
) -> Result<(), AllocError>
    requires { task ≤ LARGEST_TASK }
    ensures { OnOk result (text.new.items ≡ text.old.items ++ track_names title.now task is_admitted) }
{
    push_track_name(text, title, task)?;
    if is_admitted {
        push_odd_name(text, title, task)?;
        push_even_name(text, title, task)?;
    }
    Ok(())
}
