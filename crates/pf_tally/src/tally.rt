ghost use Rattle.std.specs.Prelude.{◌≡◌, length, IfOk};
ghost use Rattle.pf_run.specs.Computed.{run_of};
ghost use Rattle.pf_run.specs.RunRows.{AreOfRun};
ghost use Rattle.pf_tally.specs.Lags.{lags_of};
ghost use Rattle.pf_tally.specs.Misses.{misses_of};

use crate::lag::Lag;
use crate::miss::Miss;
use crate::walked_run::walk_over;
use pf_place::rows::Rows;
use pf_run::denied::Denied;
use pf_scenario::scenario::Scenario;
use std::alloc::{AllocError, Global};

/// The lags and the missed windows of a run.
#[derive(Debug, Drop)]
pub struct Tally {
    /// The lags of the tasks inside, by task number.
    pub lags: Vec<Lag>,
    /// The missed windows, by deadline and then by task number.
    pub misses: Vec<Miss>,
}

/// What `lags` and `misses` give of these rows, by one walk over them. The rows and the denials must be those of the
/// scenario's run.
///
/// # Errors
///
/// Where memory is refused.
pub fn make_tally(
    alloc: Global,
    scenario: &Scenario,
    rows: &Rows,
    denials: &[Denied],
) -> Result<Tally, AllocError>
    requires { AreOfRun scenario.now (length rows.now) rows.now denials.now }
    ensures lags { IfOk result (λ tally. tally.lags.items ≡ lags_of scenario.now (run_of scenario.now (length rows.now))) }
    ensures misses { IfOk result (λ tally. tally.misses.items ≡ misses_of scenario.now (run_of scenario.now (length rows.now))) }
{
    let run = walk_over(alloc, scenario, rows, denials)?;
    let lags = run.lags(alloc)?;
    let misses = run.misses(alloc)?;
    Ok(Tally { lags, misses })
}
