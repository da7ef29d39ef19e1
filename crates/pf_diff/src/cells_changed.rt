ghost use Rattle.std.specs.Prelude.{◌≡◌, ◌<◌, ◌≤◌, ◌^◌, [], length, min, slice_index_or};
ghost use Rattle.pf_place.specs.Lent.{lent_row};
ghost use Rattle.pf_diff.specs.Diff.{row_changes};
ghost use Rattle.pf_diff.specs.Summary.{cells_changed};

use crate::slots::is_same_sitter;
use pf_desk::rows::{row_at, row_count};
use pf_desk::snapshot::Snapshot;
use pf_place::row_view::RowView;

/// On how many processors, of so many that both rows have, another sits.
fn cells_of_slot(processors: u32, before: RowView<'_>, after: RowView<'_>) -> u32
    requires { processors ≡ min (length (lent_row before)) (length (lent_row after)) }
    ensures value { result ≡ length (row_changes 0 0 (lent_row before.entry) (lent_row after.entry)) }
    ensures bound { result ≤ processors }
{
    let mut cells = 0;
    for processor in 0..processors {
        if !is_same_sitter(before.get(processor), after.get(processor)) {
            cells += 1;
        }
    }
    cells
}

/// On how many processors another sits in slot t.
fn cells_at(before: &Snapshot, after: &Snapshot, t: u64) -> u32
    requires first { t < length before.now.rows }
    requires second { t < length after.now.rows }
    ensures bound { result < 2 ^ 32 }
    ensures value { result ≡ length (row_changes 0 0 (slice_index_or before.now.rows t []) (slice_index_or after.now.rows t [])) }
{
    let processors = before
        .settings()
        .processors()
        .min(after.settings().processors());
    cells_of_slot(processors, row_at(before, t), row_at(after, t))
}

/// How many cells of the schedule differ: on how many processors another sits, in all slots that both have.
pub(crate) fn cells_changed(before: &Snapshot, after: &Snapshot) -> u128
    ensures { result ≡ cells_changed before.now after.now }
{
    let count = row_count(before).min(row_count(after));
    let mut cells = 0;
    for t in 0..count {
        cells += u128::from(cells_at(before, after, t));
    }
    cells
}
