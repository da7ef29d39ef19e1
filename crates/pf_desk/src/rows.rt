ghost use Rattle.std.specs.Prelude.{◌≡◌, ◌<◌, Some, length};
ghost use Rattle.std.specs.List.{slice_get};
ghost use Rattle.pf_place.specs.Lent.{lent_row};

use crate::snapshot::Snapshot;
use pf_place::row_view::RowView;

/// How many slots have a row.
pub fn row_count(snapshot: &Snapshot) -> u64
    ensures { result ≡ length snapshot.now.rows }
{
    snapshot.now()
}

/// The row of slot t.
pub fn row_at(snapshot: &Snapshot, t: u64) -> RowView<'_>
    requires { t < length snapshot.now.rows }
    ensures row { Some (lent_row result) ≡ slice_get snapshot.now.rows t }
    ensures long { length (lent_row result) ≡ snapshot.now.state.plan.settings.processors }
{
    let now = snapshot.now();
    prove!(t < now);
    match snapshot.row(t) {
        Some(row) => row,
        None => unreachable!(),
    }
}
