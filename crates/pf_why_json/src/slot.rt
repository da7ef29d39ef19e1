ghost use Rattle.std.specs.Prelude.{◌≡◌, ◌++◌, ◌<◌, map, IfOk, OnOk};
ghost use Rattle.std.specs.Option.{option_and_then};
ghost use Rattle.pf_run.specs.Computed.{run_of};
ghost use Rattle.pf_scenario.specs.Scenario.{events_of};
ghost use Rattle.pf_why_text.specs.Ranks.{IsSeating, seating_of};
ghost use Rattle.pf_why_json.specs.Events.{events_json};
ghost use Rattle.pf_why_json.specs.Slot.{asked_json, end_json, front_json, middle_json, place_json, rank_in, slot_json, why_json};

use crate::events;
use crate::members::{push_list, push_or_null, push_quoted};
use crate::ranks::{places_json, ranks_json};
use pf_desk::snapshot::Snapshot;
use pf_notes::reasons::Reasons;
use pf_notes::words::{push_two, push_word};
use pf_vocabulary::names::names::Names;
use pf_why::point::Point;
use pf_why::subtask::Subtask;
use pf_why_text::asked::push_told_of;
use pf_why_text::seating::Seating;
use pf_why_text::slot::{point_of, ranking_of, seating_in};
use pf_why_text::whereabouts::{Whereabouts, whereabouts_in};
use std::alloc::{AllocError, Global};

/// The rank of a task that is in the ranking.
fn rank_in(place: Option<Whereabouts>) -> Option<u64>
    ensures { result ≡ option_and_then rank_in place }
{
    match place {
        Some(Whereabouts::Ranked { rank, .. }) => Some(rank),
        _ => None,
    }
}

/// Where a task is, that is asked for.
#[tactic(auto, unfolding(crate::specs::Slot::place_json))]
fn place_json(
    alloc: Global,
    names: &Names,
    seating: Seating<'_>,
    ranking: &[Subtask],
    task: u64,
    place: Option<Whereabouts>,
) -> Result<Vec<u8>, AllocError>
    requires { IsSeating seating }
    ensures { IfOk result (λ text. text.items ≡ place_json names.now (seating_of seating.entry) ranking.now task place) }
{
    let mut sentence = Vec::new(alloc);
    push_told_of(alloc, &mut sentence, names, seating, ranking, task, place)?;
    let mut text = Vec::new(alloc);
    push_or_null(&mut text, b"{\"rank\":", rank_in(place))?;
    push_word(&mut text, b",\"task\":", task)?;
    push_quoted(&mut text, b",\"text\":", &sentence)?;
    text.extend_from_slice(b"}")?;
    Ok(text)
}

/// The task that is asked for, or null.
fn asked_json(
    alloc: Global,
    names: &Names,
    snapshot: &Snapshot,
    seating: Seating<'_>,
    ranking: &[Subtask],
    asked: Option<u64>,
) -> Result<Vec<u8>, AllocError>
    requires seating { IsSeating seating }
    requires within { seating.slot < snapshot.now.state.now }
    ensures { IfOk result (λ text. text.items ≡ asked_json names.now snapshot.now (seating_of seating.entry) ranking.now asked) }
{
    match asked {
        Some(task) => {
            let place = whereabouts_in(alloc, snapshot, ranking, seating.slot, task)?;
            place_json(alloc, names, seating, ranking, task, place)
        }
        None => Vec::from_slice(alloc, b"null"),
    }
}

/// Adds the keys up to `count`.
#[tactic(auto, unfolding(crate::specs::Slot::front_json))]
fn push_front(text: &mut Vec<u8>, asked: &[u8], point: Point) -> Result<(), AllocError>
    ensures { OnOk result (text.new.items ≡ text.old.items ++ front_json asked.now point) }
{
    text.extend_from_slice(b"{\"asked\":")?;
    text.extend_from_slice(asked)?;
    push_two(text, b",\"base\":", point.base, b",\"count\":", point.count)
}

/// Adds `load` and `now`.
#[tactic(auto, unfolding(crate::specs::Slot::middle_json))]
fn push_middle(text: &mut Vec<u8>, point: Point) -> Result<(), AllocError>
    ensures { OnOk result (text.new.items ≡ text.old.items ++ middle_json point) }
{
    push_two(text, b",\"load\":", point.load, b",\"now\":", point.now)
}

/// Adds `room` and `slot`, and the end of the line.
#[tactic(auto, unfolding(crate::specs::Slot::end_json))]
fn push_end(text: &mut Vec<u8>, point: Point) -> Result<(), AllocError>
    ensures { OnOk result (text.new.items ≡ text.old.items ++ end_json point) }
{
    push_two(text, b",\"room\":", point.room, b",\"slot\":", point.slot)?;
    text.extend_from_slice(b"}\n")
}

/// The events of slot t.
fn events_json(
    alloc: Global,
    names: &Names,
    snapshot: &Snapshot,
    t: u64,
) -> Result<Vec<Vec<u8>>, AllocError>
    ensures { IfOk result (λ texts. map (λ v. v.items) texts.items
        ≡ events_json names.now snapshot.now.state.plan (run_of snapshot.now.state.plan snapshot.now.state.now) snapshot.now.denials (events_of snapshot.now.state.plan t)) }
{
    let reasons = Reasons::of(alloc, snapshot)?;
    let events = snapshot.scenario().slot_events(t)?;
    events::events_json(alloc, names, &reasons, snapshot.denials(), &events)
}

/// The object, of the slot of this seating, its point and its ranking.
fn slot_json(
    alloc: Global,
    names: &Names,
    snapshot: &Snapshot,
    point: Point,
    ranking: &[Subtask],
    seating: Seating<'_>,
    asked: Option<u64>,
) -> Result<Vec<u8>, AllocError>
    requires seating { IsSeating seating }
    requires within { seating.slot < snapshot.now.state.now }
    requires processors { seating.processors ≡ snapshot.now.state.plan.settings.processors }
    ensures { IfOk result (λ text. text.items ≡ slot_json names.now snapshot.now point ranking.now (seating_of seating.entry) asked) }
{
    let last = seating.last_of(ranking);
    let asked = asked_json(alloc, names, snapshot, seating, ranking, asked)?;
    let events = events_json(alloc, names, snapshot, seating.slot)?;
    let places = places_json(alloc, seating.processors, seating.row)?;
    let ranks = ranks_json(alloc, names, seating, last, ranking)?;
    let mut text = Vec::new(alloc);
    push_front(&mut text, &asked, point)?;
    push_list(&mut text, b",\"events\":", &events)?;
    push_middle(&mut text, point)?;
    push_list(&mut text, b",\"processors\":", &places)?;
    push_list(&mut text, b",\"ranking\":", &ranks)?;
    push_end(&mut text, point)?;
    Ok(text)
}

/// Why slot t of what a snapshot shows went as it did, as one JSON object on a line, its keys in byte order: the load and the room;
/// each of its events, in run order, with why it was denied where it was; who sits on each processor; and the subtasks that may
/// run in it, in the order of PD2; and where the task is that is asked for, if one is.
///
/// # Errors
///
/// Where memory is refused.
pub fn why_json(
    alloc: Global,
    snapshot: &Snapshot,
    names: &Names,
    t: u64,
    asked: Option<u64>,
) -> Result<Vec<u8>, AllocError>
    requires { t < snapshot.now.state.now }
    ensures { IfOk result (λ text. text.items ≡ why_json names.now snapshot.now t asked) }
{
    // That there is a row for each slot is known from this call alone.
    let _ = snapshot.now();
    let point = point_of(alloc, snapshot, t)?;
    let ranking = ranking_of(alloc, snapshot, t)?;
    let seating = seating_in(snapshot, t, point.count);
    slot_json(alloc, names, snapshot, point, &ranking, seating, asked)
}
