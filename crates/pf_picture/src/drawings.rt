ghost use Rattle.std.specs.Prelude.{◌≡◌, find, map, option_map, IfOk};
ghost use Rattle.pf_collections.specs.Table.Lists.{noted_of};
ghost use Rattle.std.specs.String.{string_bytes};
ghost use Rattle.pf_courses.specs.Listing.{listings_of};
ghost use Rattle.pf_picture.specs.Drawing.{asked_by, asked_of, drawings_of, early_of, is_join_below, weight_behind, weight_of, weight_text};
ghost use Rattle.pf_picture.specs.Denials.{drawing_with};

use crate::asked::Asked;
use crate::denials::denials_by_task;
use crate::drawing::Drawing;
use pf_collections::table::lists::Lists;
use pf_courses::listed::Listed;
use pf_courses::listings::listings;
use pf_desk::snapshot::Snapshot;
use pf_run::denied::Denied;
use pf_scenario::event::{Event, Numbered};
use pf_tally::diary::diaries_by_task;
use pf_vocabulary::names::name::Name;
use pf_vocabulary::names::names::Names;
use pf_vocabulary::names::titles::label_of;
use std::alloc::{AllocError, Global};

/// What an event asks for, if it is a join.
fn asked_by(event: Event) -> Option<Asked>
    ensures { result ≡ asked_by event }
{
    match event {
        Event::Join {
            cost,
            period,
            early,
            ..
        } => Some(Asked {
            cost,
            period,
            early,
        }),
        _ => None,
    }
}

/// Whether the event joins the task in a slot below `now`.
fn is_join_below(now: u64, task: u64, numbered: Numbered) -> bool
    ensures { result ≡ is_join_below now task numbered }
{
    match numbered.event {
        Event::Join {
            slot,
            task: joins,
            ..
        } => joins == task && slot < now,
        _ => false,
    }
}

/// The task's join, among its own events, that is held with a slot below `now`, if one is.
fn join_below(own: &[Numbered], now: u64, task: u64) -> Option<Numbered>
    ensures { result ≡ find (is_join_below now task) own.now }
{
    own.iter()
        .copied()
        .find(|numbered| is_join_below(now, task, *numbered))
}

/// What the task's join asks for, among its own events, that is held with a slot below `now`, if one is.
fn asked_of(own: &[Numbered], now: u64, task: u64) -> Option<Asked>
    ensures { result ≡ asked_of own.now now task }
{
    match join_below(own, now, task) {
        Some(join) => asked_by(join.event),
        None => None,
    }
}

/// The weight that a join asks for.
#[tactic(auto, unfolding(crate::specs::Drawing::weight_text))]
fn weight_text(alloc: Global, asked: Asked) -> Result<String, AllocError>
    ensures { IfOk result (λ words. string_bytes words ≡ weight_text asked) }
{
    let Asked { cost, period, .. } = asked;
    format!(in alloc; "{cost}/{period}")
}

/// The weight that a task's join asks for, or a dash where none is held.
fn weight_of(alloc: Global, asked: Option<Asked>) -> Result<String, AllocError>
    ensures { IfOk result (λ words. string_bytes words ≡ weight_of asked) }
{
    match asked {
        Some(asked) => weight_text(alloc, asked),
        None => format!(in alloc; "-"),
    }
}

/// A weight, after the number of a task that is called by its name.
#[tactic(auto, unfolding(crate::specs::Drawing::weight_behind))]
fn weight_behind(
    alloc: Global,
    name: Option<&Name>,
    task: u32,
    weight: String,
) -> Result<String, AllocError>
    ensures { IfOk result (λ words. string_bytes words ≡ weight_behind (option_map (λ name. name.now) name.entry) task (string_bytes weight)) }
{
    match name {
        Some(_) => format!(in alloc; "{task}: {weight}"),
        None => Ok(weight),
    }
}

/// By how many slots the subtasks of a task may run before their release.
fn early_of(asked: Option<Asked>) -> u64
    ensures { result ≡ early_of asked }
{
    match asked {
        Some(asked) => asked.early,
        None => 0,
    }
}

/// What a picture tells of a listed task with these events of its own, of which these are denied.
fn drawing_with(
    alloc: Global,
    names: &Names,
    own: &[Numbered],
    denied: &[Denied],
    now: u64,
    listed: Listed,
) -> Result<Drawing, AllocError>
    ensures { IfOk result (λ drawing. drawing ≡ drawing_with names.now own.now denied.now now listed) }
{
    let denied = Vec::from_slice(alloc, denied)?;
    let asked = asked_of(own, now, u64::from(listed.task()));
    let task = listed.task();
    let label = label_of(alloc, names, u64::from(task))?;
    let weight = weight_of(alloc, asked)?;
    let weight = weight_behind(alloc, names.of_task(u64::from(task)), task, weight)?;
    Ok(Drawing::new(listed, label, weight, early_of(asked), denied))
}

/// What a picture tells of these listed tasks, where of each task its own events and those of its denials are in the lists.
fn drawings_by(
    alloc: Global,
    names: &Names,
    listed: Vec<Listed>,
    own: &Lists<Numbered>,
    denied: &Lists<Denied>,
    now: u64,
) -> Result<Vec<Drawing>, AllocError>
    ensures { IfOk result (λ v. v.items ≡ map (λ l. drawing_with names.now (noted_of own.now l.task) (noted_of denied.now l.task) now l) listed.items) }
{
    let mut drawings = Vec::new(alloc);
    for task in listed {
        let number = u64::from(task.task());
        drawings.push(drawing_with(alloc, names, own.get(number), denied.get(number), now, task)?)?;
    }
    Ok(drawings)
}

/// The events held, by number.
fn held_events(alloc: Global, snapshot: &Snapshot) -> Result<Vec<Numbered>, AllocError>
    ensures { IfOk result (λ v. v.items ≡ snapshot.now.state.plan.events) }
{
    let mut held = Vec::new(alloc);
    for numbered in snapshot.events() {
        held.push(numbered)?;
    }
    Ok(held)
}

/// The listed tasks that a snapshot shows, by number.
fn listings_of(alloc: Global, snapshot: &Snapshot) -> Result<Vec<Listed>, AllocError>
    ensures { IfOk result (λ v. v.items
        ≡ listings_of snapshot.now.state.plan snapshot.now.state.now snapshot.now.rows snapshot.now.denials) }
{
    // That the rows are those of the scenario's run is known from its calls alone.
    let _ = snapshot.now();
    listings(
        alloc,
        snapshot.scenario(),
        snapshot.rows(),
        snapshot.denials(),
    )
}

/// What a picture tells of the listed tasks, by number, with these names.
///
/// # Errors
///
/// Where memory is refused.
pub fn drawings(
    alloc: Global,
    snapshot: &Snapshot,
    names: &Names,
) -> Result<Vec<Drawing>, AllocError>
    ensures { IfOk result (λ v. v.items ≡ drawings_of snapshot.now names.now) }
{
    let now = snapshot.now();
    let listed = listings_of(alloc, snapshot)?;
    let held = held_events(alloc, snapshot)?;
    let own = diaries_by_task(alloc, &held)?;
    let denied = denials_by_task(alloc, &held, snapshot.denials())?;
    drawings_by(alloc, names, listed, &own, &denied, now)
}
