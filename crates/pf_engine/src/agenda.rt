ghost use Rattle.std.specs.Prelude.{◌≡◌, ◌+◌, ◌*◌, ◌<◌, ◌≤◌, ◌⊎◌, [], max, length, fold, OnOk, vec_capacity};
ghost use Rattle.std.specs.FinSet as set;
ghost use Rattle.pf_weight.specs.declared.task.TheConstants.{LARGEST_TASK};
ghost use Rattle.pf_order.specs.Counts.{Compares};
ghost use Rattle.pf_heap.specs.Digits.{digits};
ghost use Rattle.pf_calendar.specs.Queues.{IsQueued, NoneEmpty, key_count};
ghost use Rattle.pf_admit.specs.Member.{IsMember};
ghost use Rattle.pf_run.specs.Inside.{eligible_from, next_key};
ghost use Rattle.pf_engine.specs.Kept.{tasks_after_pick};
ghost use Rattle.pf_engine.specs.Agenda.{IsAgenda, with_put};
ghost use Rattle.pf_engine.specs.Roll.{AllJoinBelow};
ghost use Rattle.pf_engine.specs.Taking.{Chooses, AreBeingRun};

use crate::roster::Roster;
use pf_admit::member::Member;
use pf_calendar::calendar::Calendar;
use pf_order::key::Key;
use pf_order::meter::Meter;
use pf_order::pick::Pick;
use pf_scenario::event::{Event, Numbered};
use pf_weight::task::number_of;
use pf_window::release;
use std::alloc::AllocError;

/// Makes room for the keys of the tasks that join by these events. The keys held stay as they were.
///
/// # Errors
///
/// Where memory is refused.
pub(crate) fn reserve_joins(calendar: &mut Calendar, events: &[Numbered]) -> Result<(), AllocError>
    requires { AllJoinBelow (LARGEST_TASK + 1) events.now }
    ensures ready { calendar.new.ready ≡ calendar.old.ready }
    ensures waiting { calendar.new.waiting ≡ calendar.old.waiting }
    ensures spare { calendar.new.spare ≡ calendar.old.spare }
    ensures grows { calendar.old.tasks ≤ calendar.new.tasks }
    ensures room { OnOk result (AllJoinBelow calendar.new.tasks events.now) }
{
    for x in events {
        if let Event::Join { task, .. } = x.event {
            calendar.reserve_task(number_of(task))?;
        }
    }
    Ok(())
}

/// Puts the key of a task's next subtask for the first slot in which it may run, though for none before `from`.
pub(crate) fn put_next(
    calendar: &mut Calendar,
    meter: &mut Meter,
    task: u32,
    member: &Member,
    from: u64,
)
    requires some { 1 ≤ task }
    requires number { task ≤ LARGEST_TASK }
    requires member { IsMember member.now }
    requires room { 1 ≤ calendar.old.spare }
    requires placed { task < calendar.old.tasks }
    requires absent { ¬ IsQueued calendar.old task }
    ensures put { calendar.new ≡ with_put calendar.old (max (eligible_from member.now) from) (next_key task member.now) }
    ensures counted { key_count calendar.new ≡ key_count calendar.old + 1 }
    ensures some { NoneEmpty calendar.new.waiting }
    ensures comparisons { Compares (digits (key_count calendar.old + 1)) meter.old meter.new }
{
    let sub = member.done as u32 + 1;
    let key = Key::of(member.weight, member.shift, sub, task);
    calendar.put(meter, eligible_from(member).max(from), key);
}

/// Takes the first `count` ready keys out, in order, or all where there are fewer, and adds their subtasks.
pub(crate) fn choose(
    calendar: &mut Calendar,
    meter: &mut Meter,
    count: usize,
    picks: &mut Vec<Pick>,
)
    requires none { picks.old.items ≡ [] }
    requires room { count ≤ vec_capacity picks.old }
    ensures first { Chooses calendar.old calendar.new picks.new.items }
    ensures enough { (length picks.new.items ≡ count) ⊎ (calendar.new.ready ≡ set.empty) }
    ensures few { length picks.new.items ≤ count }
    ensures comparisons { Compares (count * (2 * digits (key_count calendar.old))) meter.old meter.new }
{
    for _ in 0..count {
        let Some(key) = calendar.pop_ready(meter) else {
            return;
        };
        picks.push_reserved(Pick {
            task: key.task(),
            sub: key.sub(),
        });
    }
}

/// Runs these subtasks, whose keys were taken out, and puts the keys that come next for the slots after this one.
pub(crate) fn run(
    tasks: &mut Roster,
    calendar: &mut Calendar,
    meter: &mut Meter,
    slot: u64,
    picks: &[Pick],
)
    requires { AreBeingRun slot tasks.old.tasks picks.now 0 tasks.old.tasks calendar.old }
    ensures tasks { tasks.new.tasks ≡ fold tasks_after_pick tasks.old.tasks picks.now }
    ensures agenda { IsAgenda calendar.new (slot + 1) tasks.new.tasks [] }
    ensures comparisons { Compares (length picks.now * digits (length tasks.old.tasks)) meter.old meter.new }
{
    let next = slot + 1;
    for pick in picks {
        tasks.run(pick.task, u64::from(pick.sub));
        let Some(member) = tasks.get(pick.task) else {
            unreachable!()
        };
        put_next(calendar, meter, pick.task, member, next);
    }
}

/// The first slot in which a member's next subtask may run.
fn eligible_from(member: &Member) -> u64
    requires { IsMember member.now }
    ensures { result ≡ eligible_from member.now }
{
    let next = release(member.weight, member.done as u32 + 1) + member.shift;
    member.joined.max(next.saturating_sub(member.early))
}
