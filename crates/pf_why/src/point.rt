ghost use Rattle.std.specs.Prelude.{◌≡◌, ◌<◌, length, IfOk};
ghost use Rattle.pf_run.specs.Computed.{run_of};
ghost use Rattle.pf_run.specs.RunRows.{AreOfRun};
ghost use Rattle.pf_tally.specs.Levels.{level_in};
ghost use Rattle.pf_why.specs.Point.{point_of};

use pf_place::rows::Rows;
use pf_run::denied::Denied;
use pf_scenario::scenario::Scenario;
use pf_tally::level::Level;
use pf_tally::levels::levels;
use std::alloc::{AllocError, Global};

/// A slot at its choice.
#[derive(Clone, Copy)]
pub struct Point {
    /// The slot.
    pub slot: u64,
    /// The slots stepped.
    pub now: u64,
    /// How many processors are in use.
    pub count: u64,
    /// How many there are.
    pub processors: u64,
    /// The base h.
    pub base: u64,
    /// What the tasks inside ask for, in units of 1/h.
    pub load: u64,
    /// What the processors in use have.
    pub room: u64,
}

/// The load and the room of slot t.
fn level_at(
    alloc: Global,
    scenario: &Scenario,
    rows: &Rows,
    denials: &[Denied],
    t: u64,
) -> Result<Level, AllocError>
    requires of_run { AreOfRun scenario.now (length rows.now) rows.now denials.now }
    requires within { t < length rows.now }
    ensures { IfOk result (λ level. level ≡ level_in scenario.now (run_of scenario.now (length rows.now)) t) }
{
    let levels = levels(alloc, scenario, rows, denials, t, t + 1)?;
    Ok(levels[0])
}

/// Slot t at its choice. The rows and the denials must be those of the scenario's run.
///
/// # Errors
///
/// Where memory is refused.
pub fn point_at(
    alloc: Global,
    scenario: &Scenario,
    rows: &Rows,
    denials: &[Denied],
    t: u64,
) -> Result<Point, AllocError>
    requires of_run { AreOfRun scenario.now (length rows.now) rows.now denials.now }
    requires within { t < length rows.now }
    ensures { IfOk result (λ point. point ≡ point_of scenario.now (length rows.now) t) }
{
    let level = level_at(alloc, scenario, rows, denials, t)?;
    let settings = scenario.settings();
    let base = settings.base().get();
    Ok(Point {
        slot: t,
        now: rows.len() as u64,
        count: level.room / base,
        processors: u64::from(settings.processors()),
        base,
        load: level.load,
        room: level.room,
    })
}
