ghost use Rattle.std.specs.Prelude.{◌≡◌, ◌++◌, ◌^◌, ◌<◌, length, IfOk, IfSome, OnOk};
ghost use Rattle.std.specs.Option.{option_map};
ghost use Rattle.pf_place.specs.Lent.{lent_row};
ghost use Rattle.pf_run.specs.Computed.{run_of};
ghost use Rattle.pf_scenario.specs.Scenario.{events_of};
ghost use Rattle.pf_why_text.specs.Events.{events_text};
ghost use Rattle.pf_why_text.specs.Ranks.{IsSeating, seating_of};
ghost use Rattle.pf_why_text.specs.Slot.{point_seen, ranking_seen, row_before, seats_in, why_text};

use crate::asked::push_asked;
use crate::events::push_events;
use crate::head::{head_line, push_places};
use crate::ranks::push_ranking;
use crate::seating::Seating;
use pf_desk::rows::row_at;
use pf_desk::snapshot::Snapshot;
use pf_notes::reasons::Reasons;
use pf_place::row_view::RowView;
use pf_vocabulary::names::names::Names;
use pf_why::point::{Point, point_at};
use pf_why::ranking::ranking;
use pf_why::subtask::Subtask;
use std::alloc::{AllocError, Global};

/// The slot at its choice.
///
/// # Errors
///
/// Where memory is refused.
pub fn point_of(alloc: Global, snapshot: &Snapshot, t: u64) -> Result<Point, AllocError>
    requires { t < snapshot.now.state.now }
    ensures { IfOk result (λ point. point ≡ point_seen snapshot.now t) }
{
    // That the rows are those of the scenario's run is known from its calls alone.
    let _ = snapshot.now();
    point_at(
        alloc,
        snapshot.scenario(),
        snapshot.rows(),
        snapshot.denials(),
        t,
    )
}

/// The ranking of the slot.
///
/// # Errors
///
/// Where memory is refused.
pub fn ranking_of(alloc: Global, snapshot: &Snapshot, t: u64) -> Result<Vec<Subtask>, AllocError>
    requires { t < snapshot.now.state.now }
    ensures { IfOk result (λ v. v.items ≡ ranking_seen snapshot.now t) }
{
    // That the rows are those of the scenario's run is known from its calls alone.
    let _ = snapshot.now();
    ranking(
        alloc,
        snapshot.scenario(),
        snapshot.rows(),
        snapshot.denials(),
        t,
    )
}

/// The row of the slot before, if there is one.
fn row_before(snapshot: &Snapshot, t: u64) -> Option<RowView<'_>>
    requires { t < length snapshot.now.rows }
    ensures value { option_map lent_row result ≡ row_before snapshot.now t }
    ensures long { IfSome result (λ b. length (lent_row b) ≡ snapshot.now.state.plan.settings.processors) }
{
    if t == 0 {
        return None;
    }
    Some(row_at(snapshot, t - 1))
}

/// Who sits where in the slot (below 2^63), of whose processors so many are in use.
pub fn seating_in(snapshot: &Snapshot, t: u64, count: u64) -> Seating<'_>
    requires within { t < length snapshot.now.rows }
    requires short { t < 2 ^ 63 }
    ensures value { seating_of result ≡ seats_in snapshot.now count t }
    ensures seating { IsSeating result }
    ensures processors { result.processors ≡ snapshot.now.state.plan.settings.processors }
{
    Seating {
        slot: t,
        count,
        processors: snapshot.settings().processors(),
        row: row_at(snapshot, t),
        before: row_before(snapshot, t),
    }
}

/// Adds the lines of the slot's events.
fn push_slot_events(
    alloc: Global,
    text: &mut Vec<u8>,
    names: &Names,
    snapshot: &Snapshot,
    t: u64,
) -> Result<(), AllocError>
    ensures { OnOk result (text.new.items ≡ text.old.items
        ++ events_text names.now snapshot.now.state.plan (run_of snapshot.now.state.plan snapshot.now.state.now) snapshot.now.denials
        (events_of snapshot.now.state.plan t)) }
{
    let reasons = Reasons::of(alloc, snapshot)?;
    let events = snapshot.scenario().slot_events(t)?;
    push_events(alloc, text, names, &reasons, snapshot.denials(), &events)
}

/// Why slot t of what a snapshot shows went as it did, in words: the slot's line; a line for each of its events, in run order,
/// which says whether it was taken, and if not, why; a line for each processor; and the subtasks that may run in it, in the
/// order of PD2, each with its window, the rule that puts it after the one above, and what it does; and where the task is that is
/// asked for, if one is.
///
/// # Errors
///
/// Where memory is refused.
pub fn why_text(
    alloc: Global,
    snapshot: &Snapshot,
    names: &Names,
    t: u64,
    asked: Option<u64>,
) -> Result<Vec<u8>, AllocError>
    requires { t < snapshot.now.state.now }
    ensures { IfOk result (λ text. text.items ≡ why_text names.now snapshot.now t asked) }
{
    // That there is a row for each slot is known from this call alone.
    let _ = snapshot.now();
    let point = point_of(alloc, snapshot, t)?;
    let ranking = ranking_of(alloc, snapshot, t)?;
    let seating = seating_in(snapshot, t, point.count);
    let head = head_line(alloc, point, ranking.len() as u64)?;
    let mut text = Vec::new(alloc);
    text.extend_from_slice(head.as_bytes())?;
    push_slot_events(alloc, &mut text, names, snapshot, t)?;
    push_places(
        alloc,
        &mut text,
        names,
        seating.count,
        seating.processors,
        seating.row,
    )?;
    push_ranking(alloc, &mut text, names, seating, &ranking)?;
    push_asked(alloc, &mut text, names, snapshot, seating, &ranking, asked)?;
    Ok(text)
}
