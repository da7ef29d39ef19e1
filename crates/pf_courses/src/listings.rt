ghost use Rattle.std.specs.Prelude.{◌≡◌, ◌≢◌, ◌≤◌, ◌==◌, ℕ, nat_lt, filter, find, length, map, IfOk};
ghost use Rattle.std.specs.List.{list_any, position};
ghost use Rattle.std.specs.List.Sorted.{IsNonDecreasing};
ghost use Rattle.pf_scenario.specs.Event.{slot_of};
ghost use Rattle.pf_weight.specs.declared.task.TheConstants.{LARGEST_TASK};
ghost use Rattle.pf_courses.specs.Built.{listings_by};
ghost use Rattle.pf_run.specs.RunRows.{AreOfRun};
ghost use Rattle.pf_courses.specs.Listing.{listings_of};

use crate::course::Course;
use crate::courses::courses;
use crate::listed::Listed;
use pf_collections::table::lists::Lists;
use pf_place::rows::Rows;
use pf_run::denied::Denied;
use pf_scenario::event::Numbered;
use pf_scenario::scenario::Scenario;
use pf_tally::diary::diaries_by_task;
use pf_tally::standing::{denied_numbers, is_among};
use pf_weight::task::LARGEST_TASK;
use std::alloc::{AllocError, Global};

/// Whether a task with these events of its own is listed: one of them is held with a slot below `now`.
fn is_listed(own: &[Numbered], now: u64) -> bool
    ensures { result ≡ list_any (λ x. nat_lt (slot_of x.event) now) own.now }
{
    own.iter().any(|numbered| numbered.event.slot() < now)
}

/// The slots of those of the events that are denied, whose numbers rise.
fn denied_slots(alloc: Global, own: &[Numbered], denied: &[u64]) -> Result<Vec<u64>, AllocError>
    requires { IsNonDecreasing denied.now }
    ensures { IfOk result (λ v. v.items ≡ map (λ x. slot_of x.event) (filter (λ x. list_any (λ n. n == x.id) denied.now) own.now)) }
{
    let mut slots = Vec::new(alloc);
    for numbered in own {
        if is_among(denied, numbered.id) {
            slots.push(numbered.event.slot())?;
        }
    }
    Ok(slots)
}

/// The place of the task's course among these.
fn place_of(courses: &[Course], task: u64) -> Option<usize>
    ensures { result ≡ position (λ track. track.task == task) courses.now }
{
    courses.iter().position(|course| course.task() == task)
}

/// Takes the course of the task out of these, if there is one.
fn take_course(courses: &mut Vec<Course>, task: u64) -> Option<Course>
    ensures found { result ≡ find (λ track. track.task == task) courses.old.items }
    ensures others { (other : ℕ) → other ≢ task
        → find (λ track. track.task == other) courses.new.items ≡ find (λ track. track.task == other) courses.old.items }
{
    let place = place_of(courses, task)?;
    Some(courses.remove(place))
}

/// A listed task, whose course is taken out of the courses, with these events of its own; the numbers of the denied ones
/// rise.
fn listing(
    alloc: Global,
    courses: &mut Vec<Course>,
    own: &[Numbered],
    denied: &[u64],
    task: u64,
) -> Result<Listed, AllocError>
    requires number { task ≤ LARGEST_TASK }
    requires rising { IsNonDecreasing denied.now }
    ensures value { IfOk result (λ l. l ≡ record {
      task = task;
      track = find (λ track. track.task == task) courses.old.items;
      denied = map (λ x. slot_of x.event) (filter (λ x. list_any (λ n. n == x.id) denied.now) own.now);
    }) }
    ensures others { (other : ℕ) → other ≢ task
        → find (λ track. track.task == other) courses.new.items ≡ find (λ track. track.task == other) courses.old.items }
{
    let course = take_course(courses, task);
    let slots = denied_slots(alloc, own, denied)?;
    Ok(Listed::new(task as u32, course, slots))
}

/// The listed tasks, by number, with their courses, where of each task its own events are in the lists and the numbers
/// of the denied events rise.
fn listings_with(
    alloc: Global,
    mut courses: Vec<Course>,
    own: &Lists<Numbered>,
    denied: &[u64],
    now: u64,
) -> Result<Vec<Listed>, AllocError>
    requires { IsNonDecreasing denied.now }
    ensures { IfOk result (λ v. v.items ≡ listings_by courses.items own.now denied.now now LARGEST_TASK) }
{
    let mut listed = Vec::new(alloc);
    for task in 1..LARGEST_TASK + 1 {
        let events = own.get(task);
        if is_listed(events, now) {
            let listing = listing(alloc, &mut courses, events, denied, task)?;
            listed.push(listing)?;
        }
    }
    Ok(listed)
}

/// The events held, by number.
fn held_events(alloc: Global, scenario: &Scenario) -> Result<Vec<Numbered>, AllocError>
    ensures { IfOk result (λ v. v.items ≡ scenario.now.events) }
{
    let mut held = Vec::new(alloc);
    for numbered in scenario.events() {
        held.push(numbered)?;
    }
    Ok(held)
}

/// The listed tasks, by number: those of which a join, a leave or a delay is held with a slot in which these rows are. The rows
/// and the denials must be those of the scenario's run.
///
/// # Errors
///
/// Where memory is refused.
pub fn listings(
    alloc: Global,
    scenario: &Scenario,
    rows: &Rows,
    denials: &[Denied],
) -> Result<Vec<Listed>, AllocError>
    requires { AreOfRun scenario.now (length rows.now) rows.now denials.now }
    ensures { IfOk result (λ v. v.items ≡ listings_of scenario.now (length rows.now) rows.now denials.now) }
{
    let courses = courses(alloc, scenario, rows, denials)?;
    let held = held_events(alloc, scenario)?;
    let own = diaries_by_task(alloc, &held)?;
    let denied = denied_numbers(alloc, denials)?;
    listings_with(alloc, courses, &own, &denied, rows.len() as u64)
}
