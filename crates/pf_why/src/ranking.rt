ghost use Rattle.std.specs.Prelude.{◌≡◌, ◌+◌, ◌<◌, ◌≤◌, ◌^◌, All, filter, length, sum_by, IfOk};
ghost use Rattle.pf_scenario.specs.declared.settings.TheConstants.{WIDE_HORIZON};
ghost use Rattle.pf_scenario.specs.Edit.{IsEvent};
ghost use Rattle.pf_run.specs.Computed.{run_of};
ghost use Rattle.pf_run.specs.Inside.{joined_by};
ghost use Rattle.pf_run.specs.RunRows.{AreOfRun};
ghost use Rattle.pf_tally.specs.Held.{AreSuccessive, IsSmall, CanTally};
ghost use Rattle.pf_tally.specs.Late.{hold_of};
ghost use Rattle.pf_why.specs.Ranking.{candidate_by, candidates_in, is_until, next_by, ranking_in, subtask_of};

use crate::subtask::Subtask;
use pf_place::rows::Rows;
use pf_run::denied::Denied;
use pf_scenario::event::{Event, Numbered};
use pf_scenario::scenario::Scenario;
use pf_scenario::settings::Settings;
use pf_tally::admitted::Admitted;
use pf_tally::held::{Held, held_delays, slots_below};
use pf_tally::late::{leave_of, shift_at};
use pf_tally::ledger::make_ledger;
use pf_weight::weight::Weight;
use pf_window::{bit, deadline, group, release};
use std::alloc::{AllocError, Global};
use std::cmp::Reverse;

/// Those of the events whose slot is at most t.
pub(crate) fn events_until(
    alloc: Global,
    events: &[Numbered],
    t: u64,
) -> Result<Vec<Numbered>, AllocError>
    ensures { IfOk result (λ v. v.items ≡ filter (is_until t) events.now) }
{
    let mut until = Vec::new(alloc);
    for numbered in events {
        if numbered.event.slot() <= t {
            until.push(*numbered)?;
        }
    }
    Ok(until)
}

/// The task that the event brings, if it is a join.
pub(crate) fn joined(settings: Settings, event: &Event) -> Option<Admitted>
    requires { IsEvent settings event.now }
    ensures { result ≡ joined_by settings.base event.now }
{
    match *event {
        Event::Join {
            slot,
            task,
            cost,
            period,
            early,
        } => match Weight::new(settings.base(), cost, period) {
            Ok(weight) => Some(Admitted {
                task,
                slot,
                weight,
                early,
            }),
            Err(_) => unreachable!(),
        },
        _ => None,
    }
}

/// Subtask i (1 to 2^24) of a task whose delays these are.
fn subtask(task: Admitted, delays: &[Held], i: u64) -> Subtask
    requires first { 1 ≤ i }
    requires last { i ≤ 2 ^ 24 }
    requires chain { AreSuccessive 0 task.slot delays.now }
    requires small { All IsSmall delays.now }
    requires joined { task.slot < WIDE_HORIZON }
    ensures { result ≡ subtask_of task i (task.slot + sum_by (hold_of i) delays.now) }
{
    let weight = task.weight;
    let sub = i as u32;
    let shift = shift_at(task, delays, i);
    let release = release(weight, sub) + shift;
    let group = if weight.is_heavy() {
        group(weight, sub) + shift
    } else {
        0
    };
    Subtask {
        task: task.task,
        sub: i,
        release,
        deadline: deadline(weight, sub) + shift,
        bit: bit(weight, sub),
        group,
        first: task.slot.max(release.saturating_sub(task.early)),
    }
}

/// The next subtask at the choice of slot t of a task that ran in the slots `ran`, where these of its own events are in force.
pub(crate) fn next_subtask(
    alloc: Global,
    task: Admitted,
    ran: &[u64],
    events: &[Numbered],
    t: u64,
) -> Result<Subtask, AllocError>
    requires { CanTally task ran.now events.now WIDE_HORIZON }
    ensures { IfOk result (λ next. next ≡ next_by task ran.now events.now t) }
{
    let delays = held_delays(alloc, task, ran, events)?;
    Ok(subtask(task, &delays, slots_below(ran, t) + 1))
}

/// The same; none where the task left by one of the events, or the subtask may not run yet.
fn candidate(
    alloc: Global,
    task: Admitted,
    ran: &[u64],
    events: &[Numbered],
    t: u64,
) -> Result<Option<Subtask>, AllocError>
    requires { CanTally task ran.now events.now WIDE_HORIZON }
    ensures { IfOk result (λ o. o ≡ candidate_by task ran.now events.now t) }
{
    if leave_of(events, task.task).is_some() {
        return Ok(None);
    }
    let next = next_subtask(alloc, task, ran, events, t)?;
    if next.first <= t {
        Ok(Some(next))
    } else {
        Ok(None)
    }
}

/// The subtasks that may run in slot t, in the order of the joins.
fn candidates(
    alloc: Global,
    scenario: &Scenario,
    rows: &Rows,
    denials: &[Denied],
    t: u64,
) -> Result<Vec<Subtask>, AllocError>
    requires of_run { AreOfRun scenario.now (length rows.now) rows.now denials.now }
    requires within { t < length rows.now }
    ensures { IfOk result (λ v. v.items ≡ candidates_in scenario.now (run_of scenario.now (length rows.now)) t) }
{
    let ledger = make_ledger(alloc, scenario, rows, denials)?;
    let standing = events_until(alloc, &ledger.events, t)?;
    let mut found = Vec::new(alloc);
    for numbered in &standing {
        if let Some(task) = joined(ledger.settings, &numbered.event) {
            let own = events_until(alloc, ledger.diary(task), t)?;
            if let Some(next) = candidate(alloc, task, ledger.quanta(task), &own, t)? {
                found.push(next)?;
            }
        }
    }
    Ok(found)
}

/// The ranking of slot t: the subtasks that may run in it, of each task inside the next one, in the order of PD2. As many
/// of them as there are processors in use run in the slot, the first ones. The rows and the denials must be those of the
/// scenario's run.
///
/// # Errors
///
/// Where memory is refused.
pub fn ranking(
    alloc: Global,
    scenario: &Scenario,
    rows: &Rows,
    denials: &[Denied],
    t: u64,
) -> Result<Vec<Subtask>, AllocError>
    requires of_run { AreOfRun scenario.now (length rows.now) rows.now denials.now }
    requires within { t < length rows.now }
    ensures { IfOk result (λ v. v.items ≡ ranking_in scenario.now (run_of scenario.now (length rows.now)) t) }
{
    let mut ranked = candidates(alloc, scenario, rows, denials, t)?;
    ranked.sort_unstable_by_key(|next| {
        (
            next.deadline,
            (
                Reverse(next.bit),
                (Reverse(next.counted_group()), next.task),
            ),
        )
    });
    Ok(ranked)
}
