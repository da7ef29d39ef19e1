ghost use Rattle.std.specs.Prelude.{◌≡◌, ◌<◌, All, length, IfOk};
ghost use Rattle.pf_scenario.specs.Edit.{IsEvent};
ghost use Rattle.pf_scenario.specs.declared.settings.TheConstants.{WIDE_HORIZON};
ghost use Rattle.pf_run.specs.Computed.{run_of};
ghost use Rattle.pf_run.specs.RunRows.{AreOfRun};
ghost use Rattle.pf_tally.specs.Held.{CanTally};
ghost use Rattle.pf_why.specs.Upcoming.{brought_in, upcoming_by, upcoming_in};

use crate::halt::{Halt, halt_at};
use crate::ranking::{events_until, joined, next_subtask};
use crate::subtask::Subtask;
use pf_place::rows::Rows;
use pf_run::denied::Denied;
use pf_scenario::event::Numbered;
use pf_scenario::scenario::Scenario;
use pf_scenario::settings::Settings;
use pf_tally::admitted::Admitted;
use pf_tally::ledger::make_ledger;
use std::alloc::{AllocError, Global};

/// What a task has before it at a slot's choice.
#[derive(Clone, Copy)]
pub struct Upcoming {
    /// Its next subtask.
    pub next: Subtask,
    /// The stop of its clock that the slot is in, if it is in one.
    pub halt: Option<Halt>,
}

/// The task as a join among these events brings it.
fn brought_in(settings: Settings, events: &[Numbered], task: u64) -> Option<Admitted>
    requires { All (λ x. IsEvent settings x.event) events.now }
    ensures { result ≡ brought_in settings.base events.now task }
{
    for numbered in events {
        if let Some(brought) = joined(settings, &numbered.event) {
            if brought.task == task {
                return Some(brought);
            }
        }
    }
    None
}

/// What a task that ran in the slots `ran` has before it at the choice of slot t, where these events are in force, and among
/// them these of its own.
fn upcoming_by(
    alloc: Global,
    task: Admitted,
    ran: &[u64],
    own: &[Numbered],
    events: &[Numbered],
    t: u64,
) -> Result<Upcoming, AllocError>
    requires own { CanTally task ran.now own.now WIDE_HORIZON }
    requires all { CanTally task ran.now events.now WIDE_HORIZON }
    ensures { IfOk result (λ u. u ≡ upcoming_by task ran.now own.now events.now t) }
{
    let next = next_subtask(alloc, task, ran, own, t)?;
    Ok(Upcoming {
        next,
        halt: halt_at(task, ran, events, t),
    })
}

/// What a task has before it at the choice of slot t, where an admitted join of it stands before: its next subtask, and the stop
/// of its clock that the slot is in. The rows and the denials must be those of the scenario's run.
///
/// # Errors
///
/// Where memory is refused.
pub fn upcoming_at(
    alloc: Global,
    scenario: &Scenario,
    rows: &Rows,
    denials: &[Denied],
    t: u64,
    task: u64,
) -> Result<Option<Upcoming>, AllocError>
    requires of_run { AreOfRun scenario.now (length rows.now) rows.now denials.now }
    requires within { t < length rows.now }
    ensures { IfOk result (λ o. o ≡ upcoming_in scenario.now (run_of scenario.now (length rows.now)) t task) }
{
    let ledger = make_ledger(alloc, scenario, rows, denials)?;
    let standing = events_until(alloc, &ledger.events, t)?;
    match brought_in(ledger.settings, &standing, task) {
        Some(brought) => {
            let own = events_until(alloc, ledger.diary(brought), t)?;
            let ran = ledger.quanta(brought);
            Ok(Some(upcoming_by(alloc, brought, ran, &own, &standing, t)?))
        }
        None => Ok(None),
    }
}
