ghost use Rattle.std.specs.Prelude.{◌≡◌, ◌≤◌, length, sum_by, IfOk, OnOk};
ghost use Rattle.pf_scenario.specs.declared.settings.TheConstants.{LARGEST_CAP};
ghost use Rattle.pf_run.specs.Computed.{run_of};
ghost use Rattle.pf_run.specs.RunRows.{AreOfRun};
ghost use Rattle.pf_tally.specs.Levels.{levels_of, with_level};

use crate::asking::{Asking, load_of, take_event};
use crate::fits::count_after;
use crate::ledger::make_ledger;
use crate::level::Level;
use pf_place::rows::Rows;
use pf_run::denied::Denied;
use pf_scenario::scenario::Scenario;
use std::alloc::{AllocError, Global};

/// Adds the level of the slots from `from` on and below `to`, in which these tasks are inside and the processors in use have
/// `room` units, where there are such slots and the last level is another.
fn push_level(
    levels: &mut Vec<Level>,
    from: u64,
    to: u64,
    asking: &[Asking],
    room: u64,
) -> Result<(), AllocError>
    requires { sum_by (λ a. a.units) asking.now ≤ LARGEST_CAP }
    ensures { OnOk result (levels.new.items ≡ with_level levels.old.items from to (sum_by (λ a. a.units) asking.now) room) }
{
    if from >= to {
        return Ok(());
    }
    let load = load_of(asking);
    if let Some(last) = levels.last() {
        if last.load == load && last.room == room {
            return Ok(());
        }
    }
    levels.push(Level {
        slot: from,
        load,
        room,
    })?;
    Ok(())
}

/// The levels of the slots from `from` on and below `to`, of those of these rows: that of slot `from`, and one for each slot
/// after it in which load or room changes. The rows and the denials must be those of the scenario's run. It passes over the
/// events in force once.
///
/// # Errors
///
/// Where memory is refused.
pub fn levels(
    alloc: Global,
    scenario: &Scenario,
    rows: &Rows,
    denials: &[Denied],
    from: u64,
    to: u64,
) -> Result<Vec<Level>, AllocError>
    requires of_run { AreOfRun scenario.now (length rows.now) rows.now denials.now }
    requires order { from ≤ to }
    requires within { to ≤ length rows.now }
    ensures { IfOk result (λ v. v.items ≡ levels_of scenario.now (run_of scenario.now (length rows.now)) from to) }
{
    let ledger = make_ledger(alloc, scenario, rows, denials)?;
    let settings = ledger.settings;
    let base = settings.base().get();
    let mut asking = Vec::new(alloc);
    let mut count = u64::from(settings.processors());
    let mut levels = Vec::new(alloc);
    let mut passed = 0;
    for numbered in &ledger.events {
        let slot = numbered.event.slot();
        push_level(
            &mut levels,
            from.max(passed),
            to.min(slot),
            &asking,
            base * count,
        )?;
        take_event(alloc, &mut asking, settings, &numbered.event)?;
        count = count_after(count, &numbered.event);
        passed = slot;
    }
    push_level(&mut levels, from.max(passed), to, &asking, base * count)?;
    Ok(levels)
}
