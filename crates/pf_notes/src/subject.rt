ghost use Rattle.std.specs.Prelude.{◌≡◌, ◌++◌, Option, None, Some, List, ℕ, OnOk};
ghost use Rattle.std.specs.Option.{option_map};
ghost use Rattle.pf_notes.specs.Subject.{task_text, short_text, subtask_text};

use pf_text::numbers::push_number;
use std::alloc::AllocError;

/// Appends what a task is called: its name, or `task T`.
///
/// # Errors
///
/// Where memory is refused: the text is given up.
pub fn push_task(text: &mut Vec<u8>, name: Option<&[u8]>, task: u64) -> Result<(), AllocError>
    ensures { OnOk result (text.new.items ≡ text.old.items ++ task_text (option_map (λ n. n.now) name.entry) task) }
{
    match name {
        Some(name) => text.extend_from_slice(name),
        None => {
            text.extend_from_slice(b"task ")?;
            push_number(text, task)
        }
    }
}

/// Appends its name, or its number.
///
/// # Errors
///
/// Where memory is refused: the text is given up.
pub fn push_short(text: &mut Vec<u8>, name: Option<&[u8]>, task: u64) -> Result<(), AllocError>
    ensures { OnOk result (text.new.items ≡ text.old.items ++ short_text (option_map (λ n. n.now) name.entry) task) }
{
    match name {
        Some(name) => text.extend_from_slice(name),
        None => push_number(text, task),
    }
}

/// Appends a subtask of it, `T/I`.
///
/// # Errors
///
/// Where memory is refused: the text is given up.
pub fn push_subtask(
    text: &mut Vec<u8>,
    name: Option<&[u8]>,
    task: u64,
    sub: u64,
) -> Result<(), AllocError>
    ensures { OnOk result (text.new.items ≡ text.old.items ++ subtask_text (option_map (λ n. n.now) name.entry) task sub) }
{
    push_short(text, name, task)?;
    text.extend_from_slice(b"/")?;
    push_number(text, sub)
}
