ghost use Rattle.std.specs.Prelude.{◌≡◌, ◌≤◌, ◌/◌, ◌++◌, [], All, filter_map, length, IfOk, OnOk};
ghost use Rattle.std.specs.List.{cons_option};
ghost use Rattle.std.specs.List.Sorted.{IsNonDecreasing};
ghost use Rattle.std.specs.Option.{option_and_then};
ghost use Rattle.pf_scenario.specs.Edit.{IsEvent};
ghost use Rattle.pf_scenario.specs.Event.{is_join_of};
ghost use Rattle.pf_run.specs.Inside.{joined_by, load_of};
ghost use Rattle.pf_notes.specs.Point.{joined_at};
ghost use Rattle.pf_notes.specs.Leavers.{leaver_of, left_by, AreLeavers, units_beside, units_staying};
ghost use Rattle.pf_notes.specs.Absence.{join_among};

use crate::periods::quotient;
use pf_scenario::event::{Event, Numbered};
use pf_scenario::settings::Settings;
use pf_tally::admitted::Admitted;
use pf_tally::late::leave_of;
use pf_tally::standing::is_among;
use pf_weight::weight::Weight;
use std::alloc::{AllocError, Global};

/// The task that the event brings, if it is a join.
pub(crate) fn joined_by(settings: Settings, event: &Event) -> Option<Admitted>
    requires { IsEvent settings event.now }
    ensures { result ≡ joined_by settings.base event.now }
{
    match *event {
        Event::Join {
            slot,
            task,
            cost,
            period,
            early,
        } => match Weight::new(settings.base(), cost, period) {
            Ok(weight) => Some(Admitted {
                task,
                slot,
                weight,
                early,
            }),
            Err(_) => unreachable!(),
        },
        _ => None,
    }
}

/// The greatest cost, of the period that the weight has, that asks for no more than these units; 0 where none does.
pub(crate) fn cost_within(settings: Settings, weight: Weight, free: u64) -> u64
    ensures { result ≡ free / (settings.base / weight.period) }
{
    quotient(free, quotient(settings.base().get(), weight.period()))
}

/// Whether the event joins the task.
pub(crate) fn is_join_of(task: u64, event: &Event) -> bool
    ensures { result ≡ is_join_of task event.now }
{
    match *event {
        Event::Join { task: number, .. } => number == task,
        _ => false,
    }
}

/// The task as its join brought it, where it is inside after these events in force.
pub(crate) fn joined_at(settings: Settings, standing: &[Numbered], task: u64) -> Option<Admitted>
    requires { All (λ x. IsEvent settings x.event) standing.now }
    ensures { result ≡ joined_at settings.base standing.now task }
{
    match leave_of(standing, task) {
        Some(_) => None,
        None => brought_by(settings, standing, task),
    }
}

/// The first of the events that joins the task.
fn join_of(standing: &[Numbered], task: u64) -> Option<Numbered>
    ensures { result ≡ join_among task standing.now }
{
    standing
        .iter()
        .copied()
        .find(|numbered| is_join_of(task, &numbered.event))
}

/// The task as the first of the events that joins it brings it.
fn brought_by(settings: Settings, standing: &[Numbered], task: u64) -> Option<Admitted>
    requires { All (λ x. IsEvent settings x.event) standing.now }
    ensures { result ≡ option_and_then (λ x. joined_by settings.base x.event) (join_among task standing.now) }
{
    match join_of(standing, task) {
        Some(numbered) => joined_by(settings, &numbered.event),
        None => None,
    }
}

/// Appends the task that leaves by the event, if it is a leave.
fn note_leaver(tasks: &mut Vec<u64>, event: &Event) -> Result<(), AllocError>
    ensures { OnOk result (tasks.new.items ≡ tasks.old.items ++ cons_option (leaver_of event.now) []) }
{
    if let Event::Leave { task, .. } = *event {
        tasks.push(task)?;
    }
    Ok(())
}

/// The tasks that leave by these events, in their order.
fn leaving(alloc: Global, standing: &[Numbered]) -> Result<Vec<u64>, AllocError>
    ensures { IfOk result (λ v. v.items ≡ filter_map left_by standing.now) }
{
    let mut tasks = Vec::new(alloc);
    for numbered in standing {
        note_leaver(&mut tasks, &numbered.event)?;
    }
    Ok(tasks)
}

/// The same, rising.
fn leavers(alloc: Global, standing: &[Numbered]) -> Result<Vec<u64>, AllocError>
    ensures { IfOk result (λ v. AreLeavers standing.now v.items) }
{
    let mut tasks = leaving(alloc, standing)?;
    tasks.sort_unstable();
    Ok(tasks)
}

/// What the event's task asks for, in 1/h, where it joins and is not among those that leave.
fn units_staying(settings: Settings, left: &[u64], event: &Event) -> u64
    requires limits { IsEvent settings event.now }
    requires rising { IsNonDecreasing left.now }
    ensures value { result ≡ units_staying settings.base left.now event.now }
    ensures bound { result ≤ settings.base }
{
    match joined_by(settings, event) {
        Some(joined) => units_beside(left, joined),
        None => 0,
    }
}

/// What the task asks for, in 1/h, where it is not among these.
fn units_beside(left: &[u64], joined: Admitted) -> u64
    requires { IsNonDecreasing left.now }
    ensures { result ≡ units_beside left.now joined }
{
    if is_among(left, joined.task) {
        0
    } else {
        joined.weight.units()
    }
}

/// The load after these events in force, in 1/h.
///
/// # Errors
///
/// Where memory is refused.
pub(crate) fn load_of(
    alloc: Global,
    settings: Settings,
    standing: &[Numbered],
) -> Result<u64, AllocError>
    requires limits { All (λ x. IsEvent settings x.event) standing.now }
    requires few { length standing.now ≤ 65535 }
    ensures { IfOk result (λ load. load ≡ load_of settings.base standing.now) }
{
    let left = leavers(alloc, standing)?;
    let mut load = 0;
    for numbered in standing {
        load += units_staying(settings, &left, &numbered.event);
    }
    Ok(load)
}
