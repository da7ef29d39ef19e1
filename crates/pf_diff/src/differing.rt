ghost use Rattle.std.specs.Prelude.{◌≡◌, IfOk};
ghost use Rattle.pf_diff.specs.Differing.{has_changed_tables, has_changes, have_same_settings, is_different};

use crate::cell::Cell;
use crate::cells::{seen_denials, seen_lags, seen_misses};
use crate::cells_changed::cells_changed;
use crate::changes::changes;
use pf_desk::snapshot::Snapshot;
use std::alloc::{AllocError, Global};

/// Whether two snapshots have the same slots stepped, processors, base and cap.
fn have_same_settings(before: &Snapshot, after: &Snapshot) -> bool
    ensures { result ≡ have_same_settings before.now after.now }
{
    let (ours, theirs) = (before.settings(), after.settings());
    before.now() == after.now()
        && ours.processors() == theirs.processors()
        && ours.base().get() == theirs.base().get()
        && ours.cap() == theirs.cap()
}

/// Whether a table of these cells differs.
fn has_changes(alloc: Global, before: &[Cell], after: &[Cell]) -> Result<bool, AllocError>
    ensures { IfOk result (λ b. b ≡ has_changes before.now after.now) }
{
    let changes = changes(alloc, before, after)?;
    Ok(!changes.is_empty())
}

/// Whether one of the tables by key differs: the lags, the misses or the denials.
fn has_changed_tables(
    alloc: Global,
    before: &Snapshot,
    after: &Snapshot,
) -> Result<bool, AllocError>
    ensures { IfOk result (λ b. b ≡ has_changed_tables before.now after.now) }
{
    let lags = has_changes(alloc, &seen_lags(alloc, before)?, &seen_lags(alloc, after)?)?;
    let misses = has_changes(
        alloc,
        &seen_misses(alloc, before)?,
        &seen_misses(alloc, after)?,
    )?;
    let denials = has_changes(
        alloc,
        &seen_denials(alloc, before)?,
        &seen_denials(alloc, after)?,
    )?;
    Ok(lags || misses || denials)
}

/// Whether two snapshots differ: in the slots stepped, the processors, the base or the cap, or in one of the four tables of
/// what differs.
///
/// # Errors
///
/// Where memory is refused.
pub fn is_different(alloc: Global, before: &Snapshot, after: &Snapshot) -> Result<bool, AllocError>
    ensures { IfOk result (λ b. b ≡ is_different before.now after.now) }
{
    let tables = has_changed_tables(alloc, before, after)?;
    Ok(!have_same_settings(before, after) || cells_changed(before, after) != 0 || tables)
}
