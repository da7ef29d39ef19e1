ghost use Rattle.std.specs.Prelude.{◌≡◌, ◌++◌, ◌<◌, string_bytes, IfOk, OnOk};
ghost use Rattle.pf_why_text.specs.Ranks.{IsSeating, seating_of};
ghost use Rattle.pf_why_text.specs.Whereabouts.{asked_line, asked_text, first_text, halt_text, ranked_text, told_of, upcoming_text, whereabouts_text};

use crate::answer::{answer_words, subtask_words};
use crate::events::name_of;
use crate::seating::Seating;
use crate::whereabouts::{Whereabouts, whereabouts_in};
use pf_desk::snapshot::Snapshot;
use pf_notes::absence::push_absence;
use pf_notes::subject::push_task;
use pf_vocabulary::names::names::Names;
use pf_why::halt::Halt;
use pf_why::subtask::Subtask;
use pf_why::upcoming::Upcoming;
use std::alloc::{AllocError, Global};

/// The rank of a subtask, and what it does.
fn ranked_words(
    alloc: Global,
    names: &Names,
    seating: Seating<'_>,
    ranking: &[Subtask],
    rank: u64,
    x: Subtask,
) -> Result<String, AllocError>
    requires { IsSeating seating }
    ensures { IfOk result (λ words. string_bytes words ≡ ranked_text names.now (seating_of seating.entry) ranking.now rank x) }
{
    let many = ranking.len();
    let last = seating.last_of(ranking);
    let subtask = subtask_words(alloc, names, x.task, x.sub)?;
    let answer = answer_words(alloc, names, seating.slot, last, seating.seat(x), x)?;
    format!(in alloc; "{subtask} has rank {rank} of {many}, {answer}")
}

/// From when on a subtask may run, where that is not its release.
fn first_words(alloc: Global, x: Subtask) -> Result<String, AllocError>
    ensures { IfOk result (λ words. string_bytes words ≡ first_text x) }
{
    if x.first == x.release {
        Ok(String::new(alloc))
    } else {
        format!(in alloc; " and may run from slot {} on", x.first)
    }
}

/// Which slots a task's clock is stopped in, and by which event.
fn halt_words(alloc: Global, halt: Option<Halt>) -> Result<String, AllocError>
    ensures { IfOk result (λ words. string_bytes words ≡ halt_text halt) }
{
    match halt {
        Some(halt) => format!(in alloc;
            "; its clock is stopped from slot {} to {} (event {})",
            halt.from, halt.to, halt.event
        ),
        None => Ok(String::new(alloc)),
    }
}

/// What a task has before it.
fn upcoming_words(alloc: Global, names: &Names, upcoming: Upcoming) -> Result<String, AllocError>
    ensures { IfOk result (λ words. string_bytes words ≡ upcoming_text names.now upcoming) }
{
    let next = upcoming.next;
    let subtask = subtask_words(alloc, names, next.task, next.sub)?;
    let first = first_words(alloc, next)?;
    let halt = halt_words(alloc, upcoming.halt)?;
    format!(in alloc;
        "{subtask} is released in slot {}{first}{halt}",
        next.release
    )
}

/// Adds where a task is.
fn push_whereabouts(
    alloc: Global,
    text: &mut Vec<u8>,
    names: &Names,
    seating: Seating<'_>,
    ranking: &[Subtask],
    task: u64,
    place: Whereabouts,
) -> Result<(), AllocError>
    requires { IsSeating seating }
    ensures { OnOk result (text.new.items ≡ text.old.items ++ whereabouts_text names.now (seating_of seating.entry) ranking.now task place) }
{
    match place {
        Whereabouts::Ranked { rank, subtask } => {
            let words = ranked_words(alloc, names, seating, ranking, rank, subtask)?;
            text.extend_from_slice(words.as_bytes())
        }
        Whereabouts::Absent(absence) => {
            push_absence(text, name_of(names, Some(task)), task, absence)
        }
        Whereabouts::Waits(upcoming) => {
            let words = upcoming_words(alloc, names, upcoming)?;
            text.extend_from_slice(words.as_bytes())
        }
    }
}

/// Adds the sentence on a task that is there; nothing where it is nowhere.
///
/// # Errors
///
/// Where memory is refused: a front of it was added.
pub fn push_told_of(
    alloc: Global,
    text: &mut Vec<u8>,
    names: &Names,
    seating: Seating<'_>,
    ranking: &[Subtask],
    task: u64,
    place: Option<Whereabouts>,
) -> Result<(), AllocError>
    requires { IsSeating seating }
    ensures { OnOk result (text.new.items ≡ text.old.items ++ told_of names.now (seating_of seating.entry) ranking.now task place) }
{
    match place {
        Some(place) => push_whereabouts(alloc, text, names, seating, ranking, task, place),
        None => Ok(()),
    }
}

/// Adds the line of a task that is asked for.
fn push_line(
    alloc: Global,
    text: &mut Vec<u8>,
    names: &Names,
    snapshot: &Snapshot,
    seating: Seating<'_>,
    ranking: &[Subtask],
    task: u64,
) -> Result<(), AllocError>
    requires seating { IsSeating seating }
    requires within { seating.slot < snapshot.now.state.now }
    ensures { OnOk result (text.new.items ≡ text.old.items ++ asked_line names.now snapshot.now (seating_of seating.entry) ranking.now task) }
{
    let place = whereabouts_in(alloc, snapshot, ranking, seating.slot, task)?;
    push_task(text, name_of(names, Some(task)), task)?;
    text.extend_from_slice(b": ")?;
    push_told_of(alloc, text, names, seating, ranking, task, place)?;
    text.extend_from_slice(b"\n")
}

/// Adds the line of the task that is asked for, if one is: where it is at the choice of the slot of this seating, whose ranking this
/// is.
///
/// # Errors
///
/// Where memory is refused: a front of it was added.
pub(crate) fn push_asked(
    alloc: Global,
    text: &mut Vec<u8>,
    names: &Names,
    snapshot: &Snapshot,
    seating: Seating<'_>,
    ranking: &[Subtask],
    asked: Option<u64>,
) -> Result<(), AllocError>
    requires seating { IsSeating seating }
    requires within { seating.slot < snapshot.now.state.now }
    ensures { OnOk result (text.new.items ≡ text.old.items ++ asked_text names.now snapshot.now (seating_of seating.entry) ranking.now asked) }
{
    match asked {
        Some(task) => push_line(alloc, text, names, snapshot, seating, ranking, task),
        None => Ok(()),
    }
}
