ghost use Rattle.std.specs.Prelude.{◌≡◌, ◌≤◌, ◌++◌, OnOk};
ghost use Rattle.std.specs.Option.{option_map};
ghost use Rattle.pf_text.specs.Columns.Decimals.{up};
ghost use Rattle.pf_notes.specs.Grounds.{asked_text, free_text, grounds_text, later_text, released_text, repair_text, too_early_text};

use crate::absence::{Absence, push_absence};
use crate::subject::push_subtask;
use crate::words::{push_between, push_word};
use pf_text::columns::decimals::push_up;
use pf_weight::base::Base;
use std::alloc::AllocError;

/// What the denial of an event rests on.
#[derive(Clone, Copy)]
pub enum Grounds {
    /// Of a join, in units of 1/h.
    OverCapacity {
        /// What it asks for.
        asked: u64,
        /// What the load leaves of the cap.
        free: u64,
        /// The base h.
        base: Base,
        /// The greatest cost that would be let in, of the period that the join has; 0 where none would.
        cost: u64,
    },
    /// Of a leave or a delay.
    NotInside {
        /// The task.
        task: u64,
        /// Why it is not inside.
        absence: Absence,
    },
    /// Of a leave.
    TooEarly {
        /// The task.
        task: u64,
        /// Its subtask that ran last.
        sub: u64,
        /// The slot of the leave.
        slot: u64,
        /// The slot in which this subtask ran.
        ran: u64,
        /// The next slot in which the run lets the task leave, if there is one up to the number of slots stepped, or the last slot
        /// below the horizon.
        from: Option<u64>,
        /// The first slot in which its last subtask before that end lets it leave.
        later: u64,
        /// The horizon.
        horizon: u64,
    },
    /// Of a delay.
    Released {
        /// The task.
        task: u64,
        /// Its next subtask.
        sub: u64,
        /// The slot in which this subtask was released.
        slot: u64,
    },
}

impl Grounds {
    ghost use Rattle.std.specs.Prelude.{◌≡◌};
    ghost use Rattle.pf_notes.specs.Grounds.{task_of_grounds};

    /// The task that the sentence speaks of, where it speaks of one.
    pub fn task(&self) -> Option<u64>
        ensures { result ≡ task_of_grounds self.now }
    {
        match *self {
            Grounds::OverCapacity { .. } => None,
            Grounds::NotInside { task, .. }
            | Grounds::TooEarly { task, .. }
            | Grounds::Released { task, .. } => Some(task),
        }
    }
}

/// Appends these units as a share of a processor, rounded up, between two words.
fn push_share(
    text: &mut Vec<u8>,
    before: &[u8],
    base: u64,
    units: u64,
    after: &[u8],
) -> Result<(), AllocError>
    requires { 1 ≤ base }
    ensures { OnOk result (text.new.items ≡ text.old.items ++ (before.now ++ up units base 4 ++ after.now)) }
{
    text.extend_from_slice(before)?;
    push_up(text, u128::from(units), u128::from(base), 4)?;
    text.extend_from_slice(after)
}

/// Appends what a join asks for of a processor.
#[tactic(auto, unfolding(crate::specs::Grounds::asked_text))]
fn push_asked(text: &mut Vec<u8>, base: u64, asked: u64) -> Result<(), AllocError>
    requires { 1 ≤ base }
    ensures { OnOk result (text.new.items ≡ text.old.items ++ asked_text base asked) }
{
    push_share(text, b"it asks for ", base, asked, b" of a processor, and ")
}

/// Appends what is free of a processor.
#[tactic(auto, unfolding(crate::specs::Grounds::free_text), using(crate::proofs::Decimals::whole_parts))]
fn push_free(text: &mut Vec<u8>, base: u64, free: u64) -> Result<(), AllocError>
    requires { 1 ≤ base }
    ensures { OnOk result (text.new.items ≡ text.old.items ++ free_text base free) }
{
    let parts = u128::from(free) * 10_000 / u128::from(base);
    push_up(text, parts, 10_000, 4)?;
    text.extend_from_slice(b" are free")
}

/// Appends when the next subtask was released.
#[tactic(auto, unfolding(crate::specs::Grounds::released_text))]
fn push_released(text: &mut Vec<u8>, slot: u64) -> Result<(), AllocError>
    ensures { OnOk result (text.new.items ≡ text.old.items ++ released_text slot) }
{
    push_word(text, b" was released already, in slot ", slot)
}

/// Appends in which slot a task may leave that may not leave before `later`.
fn push_later(text: &mut Vec<u8>, later: u64, horizon: u64) -> Result<(), AllocError>
    ensures { OnOk result (text.new.items ≡ text.old.items ++ later_text later horizon) }
{
    if later < horizon {
        push_between(
            text,
            b"it may leave in slot ",
            later,
            b" or later, which is not stepped yet",
        )
    } else {
        push_word(text, b"it may leave in no slot below the horizon ", horizon)
    }
}

/// Appends in which slot a denied leave may leave.
fn push_repair(
    text: &mut Vec<u8>,
    from: Option<u64>,
    later: u64,
    horizon: u64,
) -> Result<(), AllocError>
    ensures { OnOk result (text.new.items ≡ text.old.items ++ repair_text from later horizon) }
{
    match from {
        Some(slot) => push_word(text, b"the next slot in which it may leave is ", slot),
        None => push_later(text, later, horizon),
    }
}

/// Appends in which slot the last subtask of the task ran, and in which slot the task may leave.
fn push_too_early(
    text: &mut Vec<u8>,
    ran: u64,
    from: Option<u64>,
    later: u64,
    horizon: u64,
) -> Result<(), AllocError>
    ensures { OnOk result (text.new.items ≡ text.old.items ++ too_early_text ran from later horizon) }
{
    push_between(text, b" ran in slot ", ran, b": ")?;
    push_repair(text, from, later, horizon)
}

/// Appends the sentence of a denial that rests on these grounds. The name is that of the task that it speaks of, where this has
/// one.
///
/// # Errors
///
/// Where memory is refused: the text is given up.
pub fn push_grounds(
    text: &mut Vec<u8>,
    name: Option<&[u8]>,
    grounds: &Grounds,
) -> Result<(), AllocError>
    ensures { OnOk result (text.new.items ≡ text.old.items ++ grounds_text (option_map (λ n. n.now) name.entry) grounds.now) }
{
    match *grounds {
        Grounds::OverCapacity {
            asked,
            free,
            base,
            ..
        } => {
            push_asked(text, base.get(), asked)?;
            push_free(text, base.get(), free)
        }
        Grounds::NotInside { task, absence } => push_absence(text, name, task, absence),
        Grounds::TooEarly {
            task,
            sub,
            ran,
            from,
            later,
            horizon,
            ..
        } => {
            push_subtask(text, name, task, sub)?;
            push_too_early(text, ran, from, later, horizon)
        }
        Grounds::Released { task, sub, slot } => {
            push_subtask(text, name, task, sub)?;
            push_released(text, slot)
        }
    }
}
