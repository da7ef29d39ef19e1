ghost use Rattle.std.specs.Prelude.{◌≡◌, IfOk};
ghost use Rattle.pf_diff.specs.Diff.{lag_cell, miss_cell, denial_cell, lag_cells, miss_cells, denial_cells};

use crate::cell::Cell;
use crate::finding::Finding;
use pf_desk::snapshot::Snapshot;
use pf_run::denied::Denied;
use pf_tally::lag::Lag;
use pf_tally::miss::Miss;
use std::alloc::{AllocError, Global};

/// A lag by its task.
fn of_lag(lag: Lag) -> Cell
    ensures { result ≡ lag_cell lag }
{
    Cell {
        first: u64::from(lag.task),
        second: 0,
        finding: Finding::Lag(lag.scaled),
    }
}

/// A missed window by its task and subtask.
fn of_miss(miss: Miss) -> Cell
    ensures { result ≡ miss_cell miss }
{
    let finding = match miss.ran {
        Some(slot) => Finding::Ran(slot),
        None => Finding::Never,
    };
    Cell {
        first: u64::from(miss.task),
        second: u64::from(miss.sub),
        finding,
    }
}

/// A denial by its event and slot.
fn of_denied(denied: Denied) -> Cell
    ensures { result ≡ denial_cell denied }
{
    Cell {
        first: denied.id,
        second: denied.slot,
        finding: Finding::Denied(denied.denial),
    }
}

/// The lags of the tasks inside.
pub(crate) fn seen_lags(alloc: Global, snapshot: &Snapshot) -> Result<Vec<Cell>, AllocError>
    ensures { IfOk result (λ cells. cells.items ≡ lag_cells snapshot.now) }
{
    let lags = snapshot.lags()?;
    lags.iter().map(|lag| of_lag(*lag)).collect(alloc)
}

/// The missed windows.
pub(crate) fn seen_misses(alloc: Global, snapshot: &Snapshot) -> Result<Vec<Cell>, AllocError>
    ensures { IfOk result (λ cells. cells.items ≡ miss_cells snapshot.now) }
{
    let misses = snapshot.misses()?;
    misses.iter().map(|miss| of_miss(*miss)).collect(alloc)
}

/// The denials of the slots below now.
pub(crate) fn seen_denials(alloc: Global, snapshot: &Snapshot) -> Result<Vec<Cell>, AllocError>
    ensures { IfOk result (λ cells. cells.items ≡ denial_cells snapshot.now) }
{
    let denials = snapshot.denials();
    denials
        .iter()
        .map(|denied| of_denied(*denied))
        .collect(alloc)
}
