ghost use Rattle.std.specs.Prelude.{◌≡◌, ◌<◌, ◌==◌, position, IfOk};
ghost use Rattle.pf_run.specs.Computed.{run_of};
ghost use Rattle.pf_why.specs.Upcoming.{upcoming_in};
ghost use Rattle.pf_why_text.specs.Whereabouts.{ranked_in, whereabouts_in};

use pf_desk::snapshot::Snapshot;
use pf_notes::absence::Absence;
use pf_notes::reasons::Reasons;
use pf_why::subtask::Subtask;
use pf_why::upcoming::{Upcoming, upcoming_at};
use std::alloc::{AllocError, Global};

/// Where a task is at a slot's choice.
#[derive(Clone, Copy)]
pub enum Whereabouts {
    /// In the ranking.
    Ranked {
        /// Its rank, from 1.
        rank: u64,
        /// Its subtask.
        subtask: Subtask,
    },
    /// Not inside.
    Absent(Absence),
    /// Inside, with a subtask that may not run yet.
    Waits(Upcoming),
}

/// Where the subtask of a task stands in a ranking.
fn place_of(ranking: &[Subtask], task: u64) -> Option<usize>
    ensures { result ≡ position (λ x. x.task == task) ranking.now }
{
    ranking.iter().position(|x| x.task == task)
}

/// The subtask of a task in a ranking, with its rank.
fn ranked_in(ranking: &[Subtask], task: u64) -> Option<Whereabouts>
    ensures { result ≡ ranked_in ranking.now task }
{
    match place_of(ranking, task) {
        Some(place) => match ranking.get(place).copied() {
            Some(subtask) => Some(Whereabouts::Ranked {
                rank: place as u64 + 1,
                subtask,
            }),
            None => None,
        },
        None => None,
    }
}

/// What a task inside has before it.
fn upcoming_of(
    alloc: Global,
    snapshot: &Snapshot,
    t: u64,
    task: u64,
) -> Result<Option<Upcoming>, AllocError>
    requires { t < snapshot.now.state.now }
    ensures { IfOk result (λ u. u ≡ upcoming_in snapshot.now.state.plan (run_of snapshot.now.state.plan snapshot.now.state.now) t task) }
{
    // That the rows are those of the scenario's run is known from its calls alone.
    let _ = snapshot.now();
    upcoming_at(
        alloc,
        snapshot.scenario(),
        snapshot.rows(),
        snapshot.denials(),
        t,
        task,
    )
}

/// Where a task is at the choice of slot t, whose ranking this is: in the ranking, not inside, or with a next subtask that may not
/// run yet, the first of these.
///
/// # Errors
///
/// Where memory is refused.
pub fn whereabouts_in(
    alloc: Global,
    snapshot: &Snapshot,
    ranking: &[Subtask],
    t: u64,
    task: u64,
) -> Result<Option<Whereabouts>, AllocError>
    requires { t < snapshot.now.state.now }
    ensures { IfOk result (λ place. place ≡ whereabouts_in snapshot.now ranking.now t task) }
{
    let ranked = ranked_in(ranking, task);
    if ranked.is_some() {
        return Ok(ranked);
    }
    let reasons = Reasons::of(alloc, snapshot)?;
    if let Some(absence) = reasons.absence(alloc, task, t)? {
        return Ok(Some(Whereabouts::Absent(absence)));
    }
    match upcoming_of(alloc, snapshot, t, task)? {
        Some(upcoming) => Ok(Some(Whereabouts::Waits(upcoming))),
        None => Ok(None),
    }
}
