ghost use Rattle.std.specs.Prelude.{◌≡◌, IfOk};
ghost use Rattle.pf_drill.specs.Drilled.{drill_text};

use crate::taken::taken_pieces;
use pf_board::quantum::Quantum;
use pf_desk::snapshot::Snapshot;
use pf_report::schedule::schedule_pieces;
use pf_text::pieces::{Chain, Whole, gathered};
use std::alloc::{AllocError, Global};

/// The text of a drill: the schedule that a snapshot shows, and what was taken, each after a line with its name.
///
/// # Errors
///
/// Where memory is refused.
pub(crate) fn drill_text(
    alloc: Global,
    snapshot: &Snapshot,
    taken: Vec<Quantum>,
) -> Result<Vec<u8>, AllocError>
    ensures { IfOk result (λ text. text.items ≡ drill_text snapshot.now taken.items) }
{
    let titles = (
        Whole::new(Vec::from_slice(alloc, b"schedule\n")?),
        Whole::new(Vec::from_slice(alloc, b"taken\n")?),
    );
    let schedule = Chain::new(titles.0, schedule_pieces(alloc, snapshot)?);
    let taken = Chain::new(titles.1, taken_pieces(alloc, taken)?);
    gathered(alloc, Chain::new(schedule, taken))
}
