ghost use Rattle.std.specs.Prelude.{◌≡◌, ◌++◌, ◌≤◌, ℕ, nat_le, List, length, filter, IfOk, OnOk};
ghost use Rattle.pf_run.specs.Computed.{run_of};
ghost use Rattle.pf_run.specs.RunRows.{AreOfRun};
ghost use Rattle.pf_tally.specs.Late.{late_misses, CanMiss};
ghost use Rattle.pf_tally.specs.Misses.{misses_of};

use crate::admitted::Admitted;
use crate::held::Held;
use crate::late::due_of;
use crate::miss::Miss;
use crate::walked_run::walk_over;
use pf_place::rows::Rows;
use pf_run::denied::Denied;
use pf_scenario::scenario::Scenario;
use pf_weight::task::number_of;
use std::alloc::{AllocError, Global};

/// Appends those of the windows that ran late which are due by the slot `last`.
pub(crate) fn note_late(misses: &mut Vec<Miss>, late: &[Miss], last: u64) -> Result<(), AllocError>
    ensures { OnOk result (misses.new.items ≡ misses.old.items ++ filter (λ m. nat_le m.deadline last) late.now) }
{
    for miss in late {
        if miss.deadline <= last {
            misses.push(*miss)?;
        }
    }
    Ok(())
}

/// Appends the windows of the task that did not run, up to subtask `now`, and are due by the slot `last`: those after
/// its first `received` subtasks.
pub(crate) fn note_unrun(
    misses: &mut Vec<Miss>,
    task: Admitted,
    delays: &[Held],
    last: u64,
    received: u32,
    now: u32,
) -> Result<(), AllocError>
    requires can { CanMiss task delays.now now }
    requires received { received ≤ now }
    ensures { OnOk result ((ran : List ℕ) (start : List Miss) → length ran ≡ received →
        misses.old.items ≡ start ++ late_misses task ran delays.now last received → misses.new.items ≡ start ++ late_misses task ran delays.now last now) }
{
    let number = number_of(task.task);
    for i in received + 1..now + 1 {
        let due = due_of(task, delays, i);
        if due > last {
            return Ok(());
        }
        misses.push(Miss {
            task: number,
            sub: i,
            deadline: due,
            ran: None,
        })?;
    }
    Ok(())
}

/// The missed windows of the tasks admitted in the slots of these rows, those that left too, by deadline and then by
/// task number. The rows and the denials must be those of the scenario's run.
///
/// # Errors
///
/// Where memory is refused.
pub fn misses(
    alloc: Global,
    scenario: &Scenario,
    rows: &Rows,
    denials: &[Denied],
) -> Result<Vec<Miss>, AllocError>
    requires { AreOfRun scenario.now (length rows.now) rows.now denials.now }
    ensures { IfOk result (λ v. v.items ≡ misses_of scenario.now (run_of scenario.now (length rows.now))) }
{
    let run = walk_over(alloc, scenario, rows, denials)?;
    run.misses(alloc)
}
