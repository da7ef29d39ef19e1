ghost use Rattle.std.specs.Prelude.{◌≡◌, ◌≤◌, ◌-◌, ◌^◌, length, IfOk};
ghost use Rattle.std.specs.Fmt.{decimal};
ghost use Rattle.pf_courses.specs.Listing.{counts_of};
ghost use Rattle.pf_picture.specs.Picture.{measures_of, picture_text_of, summary_of, task_picture_text_of, text_of};
ghost use Rattle.pf_picture.specs.Scale.{time_in};

use crate::blocks::{Blocks, end_of_blocks};
use crate::drawing::Drawing;
use crate::drawings::drawings;
use crate::frame::front;
use crate::gutter::gutter_of;
use crate::legend::legend;
use crate::scale::{Scale, step_with, time_in, width_with};
use crate::strips::strips;
use crate::summary::Summary;
use crate::task_drawings::TaskDrawings;
use pf_courses::counts::counts;
use pf_desk::snapshot::Snapshot;
use pf_text::pieces::{Chain, Pieces, Whole};
use pf_vocabulary::look::look::Look;
use pf_vocabulary::names::slot_length::SlotLength;
use pf_vocabulary::names::titles::Titles;
use pf_vocabulary::tasks::task_list::TaskList;
use std::alloc::{AllocError, Global};

/// A picture in pieces: what stands before the blocks, the blocks, and what the signs mean.
pub type PicturePieces<'a> = Chain<Whole, Chain<Blocks<'a>, Whole>>;

/// How many digits the time of slot t has.
fn digits_of(alloc: Global, slot: Option<SlotLength>, t: u64) -> Result<u64, AllocError>
    ensures { IfOk result (λ digits. digits ≡ length (decimal (time_in slot t))) }
{
    let time = time_in(slot, t);
    let digits = format!(in alloc; "{time}")?;
    Ok(digits.len() as u64)
}

/// How many processors are in use in each slot that a snapshot shows.
fn counts_of(alloc: Global, snapshot: &Snapshot) -> Result<Vec<u64>, AllocError>
    ensures { IfOk result (λ v. v.items ≡ counts_of snapshot.now.state.plan snapshot.now.state.now snapshot.now.rows) }
{
    // That the rows are those of the scenario's run is known from its calls alone.
    let _ = snapshot.now();
    counts(
        alloc,
        snapshot.scenario(),
        snapshot.rows(),
        snapshot.denials(),
    )
}

/// What the picture is measured by.
fn scale_of(
    alloc: Global,
    snapshot: &Snapshot,
    slot: Option<SlotLength>,
    drawings: &[Drawing],
    from: u64,
    to: u64,
    look: &Look,
) -> Result<Scale, AllocError>
    requires rising { from ≤ to }
    requires within { to ≤ snapshot.now.state.now }
    requires short { to - from ≤ 4096 }
    ensures value { IfOk result (λ scale. scale ≡ measures_of snapshot.now slot drawings.now from to look.now) }
    ensures within { IfOk result (λ scale. scale.to ≤ length snapshot.now.rows) }
{
    let digits = digits_of(alloc, slot, to)?;
    let processors = u64::from(snapshot.settings().processors());
    let now = snapshot.now();
    prove!(to <= now);
    let cell = look.cell.get();
    let gutter = gutter_of(look.style, drawings);
    let width = width_with(gutter, cell, look.wrap.get().min(to - from));
    Ok(Scale::new(
        from,
        to,
        cell,
        gutter,
        width,
        step_with(cell, digits),
        processors,
        strips(drawings, from, to),
        look.style,
        slot,
    ))
}

/// What the head of the picture tells, where so many of so many listed tasks are shown.
fn summary_of(
    snapshot: &Snapshot,
    shown: u64,
    listed: u64,
    from: u64,
    to: u64,
) -> Result<Summary, AllocError>
    ensures { IfOk result (λ summary. summary ≡ summary_of snapshot.now shown listed from to) }
{
    let settings = snapshot.settings();
    let missed = snapshot.misses()?.len() as u64;
    Ok(Summary {
        from,
        to,
        stepped: snapshot.now(),
        processors: u64::from(settings.processors()),
        base: settings.base().get(),
        cap: settings.cap(),
        shown,
        listed,
        missed,
        denied: snapshot.denials().len() as u64,
    })
}

/// The picture of these tasks in pieces, where so many are listed.
fn pieces_of<'a>(
    alloc: Global,
    snapshot: &'a Snapshot,
    slot: Option<SlotLength>,
    listed: u64,
    drawings: TaskDrawings,
    from: u64,
    to: u64,
    look: &Look,
) -> Result<PicturePieces<'a>, AllocError>
    requires rising { from ≤ to }
    requires within { to ≤ snapshot.now.state.now }
    requires short { to - from ≤ 4096 }
    requires few { length drawings.shown ≤ 4095 }
    ensures { IfOk result (λ pieces. pieces ≡ text_of snapshot.now slot from to look.now listed drawings) }
{
    let counts = counts_of(alloc, snapshot)?;
    let shown = drawings.shown();
    let scale = scale_of(alloc, snapshot, slot, shown, from, to, look)?;
    let summary = summary_of(snapshot, shown.len() as u64, listed, from, to)?;
    let wrap = look.wrap.get();
    let end = end_of_blocks(scale, wrap, shown);
    let front = front(alloc, scale, scale.page_height(end), &summary)?;
    let legend = legend(alloc, scale, end)?;
    let blocks = Blocks::new(snapshot, scale, wrap, drawings, counts);
    Ok(Chain::new(Whole::new(front), Chain::new(blocks, Whole::new(legend))))
}

/// The picture of the slots from `from` on, below `to`, in this look, with these names of tasks and this length of a slot,
/// in pieces: each is the row of a processor or the part of a task in a block at most.
///
/// # Errors
///
/// Where memory is refused.
pub fn picture_pieces<'a>(
    alloc: Global,
    snapshot: &'a Snapshot,
    titles: &Titles,
    from: u64,
    to: u64,
    look: &Look,
) -> Result<PicturePieces<'a>, AllocError>
    requires rising { from ≤ to }
    requires within { to ≤ snapshot.now.state.now }
    requires short { to - from ≤ 4096 }
    ensures { IfOk result (λ pieces. pieces ≡ picture_text_of snapshot.now titles.now from to look.now) }
{
    let drawings = drawings(alloc, snapshot, &titles.names)?;
    let listed = drawings.len() as u64;
    let drawings = TaskDrawings::all(alloc, drawings);
    pieces_of(
        alloc,
        snapshot,
        titles.slot,
        listed,
        drawings,
        from,
        to,
        look,
    )
}

/// That picture with the tasks of a list alone, in pieces. A quantum of another task is grey, and the head tells how many of the
/// listed tasks are shown.
///
/// # Errors
///
/// Where memory is refused.
pub fn task_picture_pieces<'a>(
    alloc: Global,
    snapshot: &'a Snapshot,
    titles: &Titles,
    tasks: &TaskList,
    from: u64,
    to: u64,
    look: &Look,
) -> Result<PicturePieces<'a>, AllocError>
    requires rising { from ≤ to }
    requires within { to ≤ snapshot.now.state.now }
    requires short { to - from ≤ 4096 }
    ensures { IfOk result (λ pieces. pieces ≡ task_picture_text_of snapshot.now titles.now tasks.now from to look.now) }
{
    let drawings = drawings(alloc, snapshot, &titles.names)?;
    let listed = drawings.len() as u64;
    let drawings = TaskDrawings::of(alloc, drawings, tasks)?;
    pieces_of(
        alloc,
        snapshot,
        titles.slot,
        listed,
        drawings,
        from,
        to,
        look,
    )
}
