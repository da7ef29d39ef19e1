ghost use Rattle.std.specs.Prelude.{◌≡◌, None, IfOk};
ghost use Rattle.pf_formats.specs.Report.{report_text};
ghost use Rattle.pf_vocabulary.specs.Options.Formats.{range_fault};
ghost use Rattle.pf_c_api.specs.Told.{LeavesRest, TellsHeld};
ghost use Rattle.pf_c_api.specs.Texts.{TellsFormat, TellsText, format_numbered, part_numbered, text_of};

use crate::handle::Handle;
use crate::held::Held;
use crate::refusals::refusals_told;
use crate::room::fill_text;
use crate::text_kind::{format_numbered, part_numbered};
use pf_c_forms::status::{NO_MEMORY, NOT_OPEN, OUT_OF_RANGE, UNKNOWN_KIND};
use pf_desk::snapshot::Snapshot;
use pf_formats::report::report_pieces;
use pf_full::refusal::Refusal;
use pf_text::pieces::gathered;
use pf_vocabulary::names::titles::Titles;
use pf_vocabulary::options::format::Format;
use std::alloc::{AllocError, Global};

/// Writes a text of a desk, of the kind of this number: `SCHEDULE` to `TABLES`. `count` is how many bytes it has, where the
/// room is too short too.
///
/// # Errors
///
/// `UNKNOWN_KIND`; `OUT_OF_RANGE` where it is a page of more slots than one may show; `TOO_SHORT`, `NO_MEMORY`, `NOT_OPEN`: the
/// room is as before.
#[unsafe(no_mangle)]
pub extern "C" fn pfair_text(
    alloc: Global,
    desk: &mut Handle,
    kind: u64,
    room: &mut [u8],
    count: &mut usize,
) -> u32
    ensures same { desk.new.value ≡ desk.old.value }
    ensures text { TellsHeld desk.old.value result (λ h. TellsText (format_numbered kind) h result count.new room.old room.new) }
    ensures rest { LeavesRest result count.old count.new room.old room.new }
{
    tell_text(alloc, desk, format_numbered(kind), room, count)
}

/// Writes the part of a text of slots, of the kind of this number, `SCHEDULE`, `CHART`, `WINDOWS`, `LOAD` or `QUANTA`, that
/// has the slots from `from` on and below `to`. `count` is how many bytes it has, where the room is too short too.
///
/// # Errors
///
/// `UNKNOWN_KIND` where the kind is none of these; `OUT_OF_RANGE` where `from` is above `to` or that above the slots stepped;
/// `TOO_SHORT`, `NO_MEMORY`, `NOT_OPEN`. The room is as before.
#[unsafe(no_mangle)]
pub extern "C" fn pfair_part(
    alloc: Global,
    desk: &mut Handle,
    kind: u64,
    from: u64,
    to: u64,
    room: &mut [u8],
    count: &mut usize,
) -> u32
    ensures same { desk.new.value ≡ desk.old.value }
    ensures part { TellsHeld desk.old.value result
        (λ h. TellsText (part_numbered kind from to) h result count.new room.old room.new) }
    ensures rest { LeavesRest result count.old count.new room.old room.new }
{
    tell_text(alloc, desk, part_numbered(kind, from, to), room, count)
}

/// Writes the text of a format, where there is one, of the desk at a handle.
fn tell_text(
    alloc: Global,
    desk: &mut Handle,
    format: Option<Format>,
    room: &mut [u8],
    count: &mut usize,
) -> u32
    ensures same { desk.new.value ≡ desk.old.value }
    ensures text { TellsHeld desk.old.value result (λ h. TellsText format h result count.new room.old room.new) }
    ensures rest { LeavesRest result count.old count.new room.old room.new }
{
    match desk.take(alloc) {
        None => NOT_OPEN,
        Some(held) => {
            let status = match format {
                None => UNKNOWN_KIND,
                Some(format) => fill_format(alloc, &held, format, room, count),
            };
            desk.put(alloc, held);
            status
        }
    }
}

/// Writes the text of a format of a desk, where it can be shown.
pub(crate) fn fill_format(
    alloc: Global,
    held: &Held,
    format: Format,
    room: &mut [u8],
    count: &mut usize,
) -> u32
    ensures text { TellsFormat format held.now result count.new room.old room.new }
    ensures rest { LeavesRest result count.old count.new room.old room.new }
{
    if format.range_fault(held.desk.now()).is_some() {
        return OUT_OF_RANGE;
    }
    match text(alloc, held, format) {
        Ok(text) => fill_text(&text, room, count),
        Err(_) => NO_MEMORY,
    }
}

/// The text of a format of a desk.
fn text(alloc: Global, held: &Held, format: Format) -> Result<Vec<u8>, AllocError>
    requires { range_fault format held.now.desk.state.now ≡ None }
    ensures { IfOk result (λ text. text.items ≡ text_of format held.now) }
{
    // A copy of its own for each call: so the check follows both.
    let shown = format;
    let desk = &held.desk;
    let refusals = refusals_told(alloc, desk.history(), format)?;
    let snapshot = desk.snapshot()?;
    text_of_snapshot(
        alloc,
        &snapshot,
        shown,
        desk.distance(),
        &held.titles,
        refusals,
    )
}

/// The text of a format of what a snapshot of a desk with such a distance of checkpoints and these titles shows, of which these
/// commands were refused.
pub(crate) fn text_of_snapshot(
    alloc: Global,
    snapshot: &Snapshot,
    format: Format,
    every: u64,
    titles: &Titles,
    refusals: Vec<Refusal>,
) -> Result<Vec<u8>, AllocError>
    requires { range_fault format snapshot.now.state.now ≡ None }
    ensures { IfOk result (λ text. text.items ≡ report_text format every snapshot.now titles.now refusals.items) }
{
    gathered(
        alloc,
        report_pieces(alloc, snapshot, every, format, titles, refusals)?,
    )
}
