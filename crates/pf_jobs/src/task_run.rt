ghost use Rattle.std.specs.Prelude.{◌≡◌, ◌+◌, ◌-◌, ◌*◌, ◌^◌, ◌<◌, ◌≤◌, All, IfSome};
ghost use Rattle.std.specs.List.{slice_get};
ghost use Rattle.std.specs.Option.{option_map};
ghost use Rattle.pf_scenario.specs.declared.settings.TheConstants.{WIDE_HORIZON};
ghost use Rattle.pf_tally.specs.Figures.{last_slot};
ghost use Rattle.pf_tally.specs.Held.{AreSuccessive, IsSmall};
ghost use Rattle.pf_jobs.specs.Jobs.{job_with};

use crate::job::Job;
use pf_scenario::event::Numbered;
use pf_tally::admitted::Admitted;
use pf_tally::held::{Held, held_delays};
use pf_tally::late::{leave_of, shift_at};
use pf_window::{deadline, release};
use std::alloc::{AllocError, Global};
use std::marker::Model;

/// What a run tells of an admitted task.
#[derive(Drop)]
pub struct TaskRun {
    task: Admitted,
    /// The slots in which it ran, rising.
    ran: Vec<u64>,
    /// What delayed it, one after another.
    delays: Vec<Held>,
    /// The slot of its leave, or how many slots there are where it did not leave.
    end: u64,
    /// How many slots there are.
    slot_count: u64,
}

impl Model for TaskRun {
    ghost use Rattle.std.specs.Prelude.{All, ◌<◌};
    ghost use Rattle.pf_scenario.specs.declared.settings.TheConstants.{WIDE_HORIZON};
    ghost use Rattle.pf_tally.specs.Late.{CanMiss};
    ghost use Rattle.pf_jobs.specs.Ran.{Ran};

    ghost Value = { Ran };

    ghost view = { λ t. record { task = t.task; slots = t.ran.items; held = t.delays.items; end = t.end; slot_count = t.slot_count } };

    ghost invariant = { λ t. CanMiss t.task t.delays.items t.slot_count × All (λ q. q < WIDE_HORIZON) t.ran.items };
}

/// The slot of the task's leave, or `now` where it did not leave.
fn last_slot(events: &[Numbered], task: Admitted, now: u64) -> u64
    ensures { result ≡ last_slot events.now task now }
{
    let left = match leave_of(events, task.task) {
        Some(numbered) => numbered.event.slot().min(now),
        None => now,
    };
    task.slot.max(left)
}

/// The slot after that in which subtask `last` ran, if it did, of a task that ran in these slots.
fn finish_of(ran: &[u64], last: u64) -> Option<u64>
    requires first { 1 ≤ last }
    requires slots { All (λ q. q < WIDE_HORIZON) ran.now }
    ensures value { result ≡ option_map (λ t. t + 1) (slice_get ran.now (last - 1)) }
    ensures bound { IfSome result (λ t. t < 2 ^ 32) }
{
    let slot = ran.get(last as usize - 1).copied()?;
    Some(slot + 1)
}

/// The job of this number of a task that ran in these slots.
fn job_with(task: Admitted, ran: &[u64], delays: &[Held], number: u64) -> Job
    requires cost { 1 ≤ task.weight.cost }
    requires first { task.weight.cost ≤ number * task.weight.cost }
    requires last { number * task.weight.cost ≤ WIDE_HORIZON }
    requires slots { All (λ q. q < WIDE_HORIZON) ran.now }
    requires chain { AreSuccessive 0 task.slot delays.now }
    requires small { All IsSmall delays.now }
    requires joined { task.slot < WIDE_HORIZON }
    ensures value { result ≡ job_with task ran.now delays.now number }
    ensures release { result.release < 2 ^ 56 }
    ensures finish { IfSome result.finish (λ t. t < 2 ^ 32) }
{
    let last = number * task.weight.cost();
    let first = last + 1 - task.weight.cost();
    Job {
        task: task.task,
        number,
        release: release(task.weight, first as u32) + shift_at(task, delays, first),
        deadline: deadline(task.weight, last as u32) + shift_at(task, delays, last),
        finish: finish_of(ran, last),
    }
}

impl TaskRun {
    ghost use Rattle.std.specs.Prelude.{◌≡◌, ◌^◌, ◌<◌, ◌≤◌, All, IfOk, IfSome};
    ghost use Rattle.pf_scenario.specs.declared.settings.TheConstants.{WIDE_HORIZON};
    ghost use Rattle.pf_jobs.specs.Ran.{ran_by};
    ghost use Rattle.pf_tally.specs.Held.{CanTally};
    ghost use Rattle.pf_jobs.specs.Jobs.{is_told, job_by, job_count};

    /// That of a task which ran in these slots, and whose own events these are, after `now` slots.
    ///
    /// # Errors
    ///
    /// Where memory is refused.
    pub(crate) fn of(
        alloc: Global,
        task: Admitted,
        ran: &[u64],
        events: &[Numbered],
        now: u64,
    ) -> Result<Self, AllocError>
        requires can { CanTally task ran.now events.now now }
        requires slots { All (λ q. q < WIDE_HORIZON) ran.now }
        ensures { IfOk result (λ run. run ≡ ran_by task ran.now events.now now) }
    {
        let delays = held_delays(alloc, task, ran, events)?;
        Ok(TaskRun {
            task,
            ran: Vec::from_slice(alloc, ran)?,
            delays,
            end: last_slot(events, task, now),
            slot_count: now,
        })
    }

    /// How many jobs are looked at: none of a greater number is done or due.
    pub(crate) fn job_count(&self) -> u64
        ensures { result ≡ job_count self.now }
    {
        self.slot_count / self.task.weight.cost()
    }

    /// The job of this number.
    pub(crate) fn job(&self, number: u64) -> Job
        requires first { 1 ≤ number }
        requires last { number ≤ job_count self.now }
        ensures value { result ≡ job_by self.now number }
        ensures release { result.release < 2 ^ 56 }
        ensures finish { IfSome result.finish (λ t. t < 2 ^ 32) }
    {
        job_with(self.task, &self.ran, &self.delays, number)
    }

    /// Whether the job is told of: its last subtask ran, or was due by the task's end.
    pub(crate) fn tells(&self, job: Job) -> bool
        ensures { result ≡ is_told self.now.end job }
    {
        job.finish.is_some() || job.deadline <= self.end
    }
}
