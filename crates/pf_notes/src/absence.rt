ghost use Rattle.std.specs.Prelude.{◌≡◌, ◌++◌, codes, OnOk};
ghost use Rattle.std.specs.Option.{option_map};
ghost use Rattle.pf_notes.specs.Subject.{task_text};
ghost use Rattle.pf_notes.specs.Absence.{absence_text, joined_behind, place_text, there_text};

use crate::subject::push_task;
use crate::words::{push_between, push_two};
use pf_scenario::event::Numbered;
use std::alloc::AllocError;

/// Why a task is not inside at a point of a run.
#[derive(Clone, Copy)]
pub enum Absence {
    /// No event held joins it.
    NoJoin,
    /// Its join is of the slot of the point, and comes after it.
    JoinsThere {
        /// The join's number.
        event: u64,
    },
    /// Its join is of a later slot.
    JoinsLater {
        /// The slot of the join.
        slot: u64,
        /// The join's number.
        event: u64,
    },
    /// Its join was denied.
    JoinDenied {
        /// The slot of the join.
        slot: u64,
        /// The join's number.
        event: u64,
    },
    /// It left.
    Left {
        /// The slot of the leave.
        slot: u64,
        /// The leave's number.
        event: u64,
    },
}

/// Of a task that this event joins, which does not come before a point of this slot.
pub(crate) fn joined_behind(slot: u64, join: Numbered) -> Absence
    ensures { result ≡ joined_behind slot join }
{
    let event = join.id;
    let later = join.event.slot();
    if later == slot {
        Absence::JoinsThere { event }
    } else {
        Absence::JoinsLater { slot: later, event }
    }
}

/// Appends the slot and the number of an event.
fn push_place(text: &mut Vec<u8>, slot: u64, event: u64) -> Result<(), AllocError>
    ensures { OnOk result (text.new.items ≡ text.old.items ++ place_text slot event) }
{
    push_two(text, b" in slot ", slot, b" (event ", event)?;
    text.extend_from_slice(b")")
}

/// Appends that a task joins in the slot of a leave, by the event of this number.
#[tactic(auto, unfolding(crate::specs::Absence::there_text))]
fn push_there(text: &mut Vec<u8>, event: u64) -> Result<(), AllocError>
    ensures { OnOk result (text.new.items ≡ text.old.items ++ there_text event) }
{
    push_between(
        text,
        b" joins in that slot, and leaves come before joins (event ",
        event,
        b")",
    )
}

/// Appends which join is spoken of.
fn push_joined(text: &mut Vec<u8>, name: Option<&[u8]>, task: u64) -> Result<(), AllocError>
    ensures { OnOk result (text.new.items ≡ text.old.items ++ (codes "the join of " ++ task_text (option_map (λ n. n.now) name.entry) task)) }
{
    text.extend_from_slice(b"the join of ")?;
    push_task(text, name, task)
}

/// Appends the sentence that tells why the task is not inside. The name is the task's, where it has one.
///
/// # Errors
///
/// Where memory is refused: the text is given up.
pub fn push_absence(
    text: &mut Vec<u8>,
    name: Option<&[u8]>,
    task: u64,
    absence: Absence,
) -> Result<(), AllocError>
    ensures { OnOk result (text.new.items ≡ text.old.items ++ absence_text (option_map (λ n. n.now) name.entry) task absence) }
{
    match absence {
        Absence::NoJoin => {
            text.extend_from_slice(b"no join of ")?;
            push_task(text, name, task)?;
            text.extend_from_slice(b" is held")
        }
        Absence::JoinsThere { event } => {
            push_task(text, name, task)?;
            push_there(text, event)
        }
        Absence::JoinsLater { slot, event } => {
            push_task(text, name, task)?;
            text.extend_from_slice(b" joins later,")?;
            push_place(text, slot, event)
        }
        Absence::JoinDenied { slot, event } => {
            push_joined(text, name, task)?;
            push_place(text, slot, event)?;
            text.extend_from_slice(b" is denied")
        }
        Absence::Left { slot, event } => {
            push_task(text, name, task)?;
            text.extend_from_slice(b" left")?;
            push_place(text, slot, event)
        }
    }
}
