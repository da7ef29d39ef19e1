ghost use Rattle.std.specs.Prelude.{◌≡◌, IfOk};
ghost use Rattle.pf_run.specs.Computed.{run_of};
ghost use Rattle.pf_verdict.specs.Stretches.{AreStretches, stretches_of};

use crate::stretch::Stretch;
use pf_desk::snapshot::Snapshot;
use pf_tally::level::Level;
use pf_tally::levels::levels;
use std::alloc::{AllocError, Global};

/// The stretches of these levels, the last of which holds up to slot `now`.
fn stretches_of(alloc: Global, levels: &[Level], now: u64) -> Result<Vec<Stretch>, AllocError>
    ensures { IfOk result (λ v. v.items ≡ stretches_of levels.now now) }
{
    let mut stretches = Vec::with_capacity(alloc, levels.len())?;
    for (k, level) in levels.iter().enumerate() {
        let to = match levels.get(k + 1) {
            Some(next) => next.slot,
            None => now,
        };
        stretches.push(Stretch {
            from: level.slot,
            to,
            load: level.load,
            room: level.room,
        })?;
    }
    Ok(stretches)
}

/// The stretches of the slots below now, in their order.
///
/// # Errors
///
/// Where memory is refused.
pub fn stretches(alloc: Global, snapshot: &Snapshot) -> Result<Vec<Stretch>, AllocError>
    ensures { IfOk result (λ v. AreStretches snapshot.now.state.plan (run_of snapshot.now.state.plan snapshot.now.state.now) snapshot.now.state.now v.items) }
{
    // That the rows are those of the scenario's run is known from its calls alone.
    let now = snapshot.now();
    let levels = levels(
        alloc,
        snapshot.scenario(),
        snapshot.rows(),
        snapshot.denials(),
        0,
        now,
    )?;
    stretches_of(alloc, &levels, now)
}
