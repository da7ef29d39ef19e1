ghost use Rattle.std.specs.Prelude.{◌≡◌, ◌≤◌, length, IfOk};
ghost use Rattle.pf_courses.specs.Listing.{counts_of};
ghost use Rattle.pf_picture.specs.Left.{IsLeft, IsNextRow};

use crate::in_rows::height_of;
use crate::processors::processor_text;
use crate::scale::Scale;
use crate::task::task_text;
use crate::task_drawings::TaskDrawings;
use pf_desk::snapshot::Snapshot;
use std::alloc::{AllocError, Global};

/// What is left of a block whose rows are handed out.
#[derive(Clone, Copy)]
pub struct RowsLeft {
    /// The first processor that is left.
    pub processor: u32,
    /// The place of the first task that is left.
    pub place: u64,
    /// Where its part begins.
    pub top: u128,
}

/// The row of a processor or the part of a task, and what is left after it.
#[derive(Drop)]
pub struct Row {
    /// Its text.
    pub text: Vec<u8>,
    /// What is left.
    pub left: RowsLeft,
}

/// The next row of a block, where so many processors are in use in each slot; none where only its end is left.
///
/// # Errors
///
/// Where memory is refused.
pub(crate) fn next_row(
    alloc: Global,
    snapshot: &Snapshot,
    scale: Scale,
    drawings: &TaskDrawings,
    counts: &[u64],
    rows: RowsLeft,
) -> Result<Option<Row>, AllocError>
    requires counts { counts.now ≡ counts_of snapshot.now.state.plan snapshot.now.state.now snapshot.now.rows }
    requires within { scale.to ≤ length snapshot.now.rows }
    requires few { length drawings.now.shown ≤ 4095 }
    requires left { IsLeft rows }
    ensures { IfOk result (λ row. IsNextRow snapshot.now scale drawings.now rows row) }
{
    let RowsLeft {
        processor,
        place,
        top,
    } = rows;
    if u64::from(processor) < scale.processors() {
        let text = processor_text(alloc, snapshot, scale, drawings, counts, processor)?;
        let left = RowsLeft {
            processor: processor + 1,
            place,
            top,
        };
        return Ok(Some(Row { text, left }));
    }
    let shown = drawings.shown();
    if place >= shown.len() as u64 {
        return Ok(None);
    }
    let drawing = &shown[place as usize];
    let text = task_text(alloc, scale, top, place, drawing)?;
    let left = RowsLeft {
        processor,
        place: place + 1,
        top: top + height_of(scale, drawing),
    };
    Ok(Some(Row { text, left }))
}
