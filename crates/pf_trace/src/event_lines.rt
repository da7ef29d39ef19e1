ghost use Rattle.std.specs.Prelude.{◌≡◌, ◌++◌, ◌≤◌, OnOk};
ghost use Rattle.pf_weight.specs.declared.task.TheConstants.{LARGEST_TASK};
ghost use Rattle.pf_trace.specs.Lines.{denied_front, denied_line, denied_reason, kind_text, moment_line, taken_line};

use crate::form::push_filled;
use crate::moment::Moment;
use crate::title::Title;
use pf_admit::denial::Denial;
use pf_scenario::event::{Event, Numbered};
use std::alloc::AllocError;

/// What the kind of an event is called.
fn kind_text(event: Event) -> &'static [u8]
    ensures { result.now ≡ kind_text event }
{
    match event {
        Event::Join { .. } => b"join",
        Event::Leave { .. } => b"leave",
        Event::Delay { .. } => b"delay",
        Event::Limit { .. } => b"limit",
    }
}

/// Adds an event of a task that was taken.
fn push_taken(
    text: &mut Vec<u8>,
    title: &Title,
    task: u64,
    id: u64,
    event: Event,
) -> Result<(), AllocError>
    requires { task ≤ LARGEST_TASK }
    ensures { OnOk result (text.new.items ≡ text.old.items ++ taken_line title.now task id event) }
{
    let track = 100 * task;
    match event {
        Event::Join { slot, .. } => push_filled(
            text,
            title,
            b",\n{\"args\":{\"event\":#},\"cat\":\"event\",\"name\":\"join\",\"ph\":\"i\",\"pid\":2,\"s\":\"t\",\"tid\":#,\"ts\":@}",
            &[id, track, slot],
        ),
        Event::Leave { slot, .. } => push_filled(
            text,
            title,
            b",\n{\"args\":{\"event\":#},\"cat\":\"event\",\"name\":\"leave\",\"ph\":\"i\",\"pid\":2,\"s\":\"t\",\"tid\":#,\"ts\":@}",
            &[id, track, slot],
        ),
        Event::Delay { slot, by, .. } => push_filled(
            text,
            title,
            b",\n{\"args\":{\"event\":#},\"cat\":\"event\",\"name\":\"delay by #\",\"ph\":\"i\",\"pid\":2,\"s\":\"t\",\"tid\":#,\"ts\":@}",
            &[id, by, track, slot],
        ),
        Event::Limit { .. } => Ok(()),
    }
}

/// Adds the front of an event that was denied, up to its kind.
fn push_denied_front(
    text: &mut Vec<u8>,
    title: &Title,
    id: u64,
    event: Event,
) -> Result<(), AllocError>
    ensures { OnOk result (text.new.items ≡ text.old.items ++ denied_front title.now id event) }
{
    push_filled(
        text,
        title,
        b",\n{\"args\":{\"event\":#},\"cat\":\"denied\",\"name\":\"denied ",
        &[id],
    )?;
    text.extend_from_slice(kind_text(event))
}

/// Adds the number and the name of a reason.
fn push_reason(text: &mut Vec<u8>, title: &Title, denial: Denial) -> Result<(), AllocError>
    ensures { OnOk result (text.new.items ≡ text.old.items ++ denied_reason title.now denial) }
{
    push_filled(text, title, b": # ", &[denial.code()])?;
    text.extend_from_slice(denial.name().as_bytes())
}

/// Adds an event of a task that was denied, with the number and the name of the reason.
fn push_denied(
    text: &mut Vec<u8>,
    title: &Title,
    task: u64,
    id: u64,
    event: Event,
    denial: Denial,
) -> Result<(), AllocError>
    requires { task ≤ LARGEST_TASK }
    ensures { OnOk result (text.new.items ≡ text.old.items ++ denied_line title.now task id event denial) }
{
    push_denied_front(text, title, id, event)?;
    push_reason(text, title, denial)?;
    push_filled(
        text,
        title,
        b"\",\"ph\":\"i\",\"pid\":2,\"s\":\"t\",\"tid\":#,\"ts\":@}",
        &[100 * task, event.slot()],
    )
}

/// Adds an event of a task.
pub(crate) fn push_moment(
    text: &mut Vec<u8>,
    title: &Title,
    task: u64,
    moment: Moment,
) -> Result<(), AllocError>
    requires { task ≤ LARGEST_TASK }
    ensures { OnOk result (text.new.items ≡ text.old.items ++ moment_line title.now task moment) }
{
    let Numbered { id, event } = moment.numbered;
    match moment.denial {
        Some(denial) => push_denied(text, title, task, id, event, denial),
        None => push_taken(text, title, task, id, event),
    }
}
