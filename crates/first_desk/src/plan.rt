ghost use Rattle.std.specs.Prelude.{◌≡◌, map, All, IfOk};
ghost use Rattle.pf_desk.specs.Desk.{IsDesk};
ghost use Rattle.first_desk.specs.Planned.{join_command, planner, planned_settings, planned_commands};

use pf_desk::command::Command;
use pf_desk::desk::Desk;
use pf_desk::fault::OpenFault;
use pf_order::meter::Meter;
use pf_scenario::change::Change;
use pf_scenario::event::Event;
use pf_scenario::fault::BadSettings;
use pf_scenario::settings::Settings;
use std::alloc::{AllocError, Global};
use thiserror::Error;

/// Why there is no plan.
#[derive(Debug, Drop, Error)]
pub enum PlanFault {
    /// A number of the settings is out of its limits.
    #[error(transparent)]
    Settings(#[from] BadSettings),
    /// The desk was not opened.
    #[error(transparent)]
    Open(#[from] OpenFault),
    /// Memory was refused.
    #[error("memory was refused")]
    Memory(#[from] AllocError),
}

/// The planner's number in the history.
pub(crate) const PLANNER: u32 = 0;

/// A join in slot 0 of a task that asks for two quanta in each three slots.
fn join(task: u64) -> Command
    ensures { result ≡ join_command task }
{
    let event = Event::Join {
        slot: 0,
        task,
        cost: 2,
        period: 3,
        early: 0,
    };
    Command::Edit {
        change: Change::Insert(event),
        strict: false,
    }
}

/// A desk of two processors on which three tasks join and three slots are stepped; then the third task is struck out.
///
/// # Errors
///
/// `Open` or `Memory` where memory is refused; the settings are within their limits.
pub fn plan(alloc: Global) -> Result<Desk, PlanFault>
    ensures desk { IfOk result (λ desk. IsDesk desk) }
    ensures settings { IfOk result (λ desk. desk.state.plan.settings ≡ planned_settings) }
    ensures asked { IfOk result (λ desk. map (λ e. e.command) desk.history ≡ planned_commands) }
    ensures callers { IfOk result (λ desk. All (λ e. e.caller ≡ planner) desk.history) }
{
    let mut desk = Desk::open(alloc, Settings::new(2, 3, 6)?, 64)?;
    let mut meter = Meter::new();
    let commands = [
        join(1),
        join(2),
        join(3),
        Command::Step,
        Command::Step,
        Command::Step,
        Command::Edit {
            change: Change::Strike(3),
            strict: false,
        },
    ];
    desk.apply_all(&mut meter, PLANNER, &commands)?;
    Ok(desk)
}
