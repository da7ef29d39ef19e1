ghost use Rattle.std.specs.Prelude.{◌≡◌, ◌∷◌, ◌≤◌, All};
ghost use Rattle.pf_convert.specs.Slots.{IsQuantum};
ghost use Rattle.pf_convert.specs.Fit.Lateness.{drifting_count, early_count, first_drifting, is_late, late_count, later, latest_from};
ghost use Rattle.pf_convert.specs.Fit.Shown.{IsShownTask};

use crate::fit::exactness::is_drifting;
use crate::fit::shown::Shown;
use crate::fit::shown_task::ShownTask;

/// How many of these tasks may run before their release.
#[tactic(auto, unfolding(crate::specs::Fit::Lateness::early_count))]
pub fn early_tasks(tasks: &[ShownTask<'_>]) -> usize
    ensures { result ≡ early_count tasks.now }
{
    let mut count = 0;
    for task in tasks {
        if task.slots.early > 0 {
            count += 1;
        }
    }
    count
}

/// Whether a job of a task may be done later than it is due where it comes at any time.
fn is_late(shown: &Shown<'_, '_>, task: ShownTask<'_>) -> bool
    ensures { result ≡ is_late shown.now task.entry }
{
    shown.any_response(task) > u128::from(task.times.due())
}

/// How many tasks that is so of.
#[tactic(auto, unfolding(crate::specs::Fit::Lateness::late_count))]
pub fn late_tasks(shown: &Shown<'_, '_>) -> usize
    ensures { result ≡ late_count shown.now shown.now.tasks.now }
{
    let mut count = 0;
    for task in shown.tasks {
        if is_late(shown, *task) {
            count += 1;
        }
    }
    count
}

/// How many of these tasks have windows that drift from their jobs, in quanta of this length.
#[tactic(auto, unfolding(crate::specs::Fit::Lateness::drifting_count))]
pub fn drifting_tasks(quantum: u64, tasks: &[ShownTask<'_>]) -> usize
    ensures { result ≡ drifting_count quantum tasks.now }
{
    let mut count = 0;
    for task in tasks {
        if is_drifting(quantum, *task) {
            count += 1;
        }
    }
    count
}

/// The first of them.
#[tactic(auto, unfolding(crate::specs::Fit::Lateness::first_drifting))]
pub fn first_drifting<'a>(quantum: u64, tasks: &[ShownTask<'a>]) -> Option<ShownTask<'a>>
    ensures { result ≡ first_drifting quantum tasks.now }
{
    for task in tasks {
        if is_drifting(quantum, *task) {
            return Some(*task);
        }
    }
    None
}

/// Of two tasks the one that takes more of the time within which it is due, of equals the first.
fn later<'a>(shown: &Shown<'_, '_>, task: ShownTask<'a>, next: ShownTask<'a>) -> ShownTask<'a>
    requires quantum { IsQuantum shown.now.quantum }
    requires task { IsShownTask task }
    requires next { IsShownTask next }
    ensures { result ≡ later shown.now task.entry next.entry }
{
    let ours = shown.any_response(task) * u128::from(next.times.due());
    let theirs = shown.any_response(next) * u128::from(task.times.due());
    if ours < theirs { next } else { task }
}

/// Of a task and others the one that takes most of it, of equals the first.
#[tactic(auto, unfolding(crate::specs::Fit::Lateness::latest_from))]
pub fn latest_from<'a>(
    shown: &Shown<'_, '_>,
    task: ShownTask<'a>,
    others: &[ShownTask<'a>],
) -> ShownTask<'a>
    requires quantum { IsQuantum shown.now.quantum }
    requires task { IsShownTask task }
    requires others { All IsShownTask others.now }
    ensures { result ≡ latest_from shown.now task.entry others.now }
{
    let mut latest = task;
    for next in others {
        latest = later(shown, latest, *next);
    }
    latest
}
