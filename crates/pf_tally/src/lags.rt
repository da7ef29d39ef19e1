ghost use Rattle.std.specs.Prelude.{◌≡◌, ◌≤◌, pos, ◌*◌, ◌-ℤ◌, length, IfOk};
ghost use Rattle.pf_weight.specs.declared.task.TheConstants.{LARGEST_TASK};
ghost use Rattle.pf_scenario.specs.declared.settings.TheConstants.{WIDE_HORIZON};
ghost use Rattle.pf_run.specs.Computed.{run_of};
ghost use Rattle.pf_run.specs.RunRows.{AreOfRun};
ghost use Rattle.pf_tally.specs.Lags.{lags_of};

use crate::admitted::Admitted;
use crate::lag::Lag;
use crate::walked_run::walk_over;
use pf_place::rows::Rows;
use pf_run::denied::Denied;
use pf_scenario::scenario::Scenario;
use pf_weight::task::number_of;
use std::alloc::{AllocError, Global};

/// The lag of a task of this clock that received so many quanta.
pub(crate) fn lag_at(task: Admitted, clock: u64, received: u64) -> Lag
    requires number { task.task ≤ LARGEST_TASK }
    requires clock { clock ≤ WIDE_HORIZON }
    requires received { received ≤ WIDE_HORIZON }
    ensures { result ≡ record {
      task = task.task;
      cost = task.weight.cost;
      period = task.weight.period;
      received = received;
      scaled = pos (task.weight.cost * clock) -ℤ pos (task.weight.period * received);
    } }
{
    let cost = task.weight.cost();
    let period = task.weight.period();
    let owed = cost * clock;
    let had = period * received;
    Lag {
        task: number_of(task.task),
        cost,
        period,
        received,
        scaled: owed as i64 - had as i64,
    }
}

/// The lags of the tasks inside after the slots of these rows, by task number. The rows and the denials must be
/// those of the scenario's run.
///
/// # Errors
///
/// Where memory is refused.
pub fn lags(
    alloc: Global,
    scenario: &Scenario,
    rows: &Rows,
    denials: &[Denied],
) -> Result<Vec<Lag>, AllocError>
    requires { AreOfRun scenario.now (length rows.now) rows.now denials.now }
    ensures { IfOk result (λ v. v.items ≡ lags_of scenario.now (run_of scenario.now (length rows.now))) }
{
    let run = walk_over(alloc, scenario, rows, denials)?;
    run.lags(alloc)
}
