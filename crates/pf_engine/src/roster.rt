ghost use Rattle.std.specs.Prelude.{◌≡◌, ◌+◌, ◌^◌, ◌<◌, ◌≤◌, ◌++◌, ◌∷◌, [], None, Some, OnOk, IfOk, MatchOption, All, length, map};
ghost use Rattle.std.specs.Option.{option_copied, ForSome};
ghost use Rattle.pf_weight.specs.declared.task.TheConstants.{LARGEST_TASK};
ghost use Rattle.pf_scenario.specs.declared.scenario.TheConstants.{MOST_EVENTS};
ghost use Rattle.pf_collections.specs.Table.Grown.{size_of};
ghost use Rattle.pf_engine.specs.Kept.{member_in, changed_tasks, other_tasks, member_after_delay, member_after_run};
ghost use Rattle.pf_engine.specs.Places.{IsListedTo, HasNoTask, IsOnlyAt};
ghost use Rattle.pf_engine.specs.Roll.{AllJoinBelow};
ghost use Rattle.pf_engine.specs.Saved.{saved_of};
ghost use Rattle.pf_engine.specs.Engines.{IsInside};

use crate::kept_task::KeptTask;
use crate::saved_task::SavedTask;
use pf_admit::member::Member;
use pf_collections::table::table::Table;
use pf_scenario::event::{Event, Numbered};
use pf_weight::task::number_of;
use std::alloc::{AllocError, Global};
use std::marker::Model;

/// The tasks inside, in the order of their joins. A table by number says where each stands, so that none is searched
/// for; at the number of a task that is not inside, it holds any place.
#[derive(Drop)]
pub(crate) struct Roster {
    places: Table<u16>,
    tasks: Vec<KeptTask>,
}

impl Model for Roster {
    ghost use Rattle.std.specs.Prelude.{◌-◌, vec_len, vec_capacity};
    ghost use Rattle.pf_collections.specs.Table.Grown.{size_of};
    ghost use Rattle.pf_engine.specs.Roll.{Roll};

    ghost Value = { Roll };

    ghost use Rattle.pf_engine.specs.Places.{IsListed};

    ghost view = { λ r. record { tasks = r.tasks.items; spare = vec_capacity r.tasks - vec_len r.tasks; numbers = size_of r.places } };

    ghost invariant = { λ r. IsListed r.places r.tasks.items };
}

impl Roster {
    /// No task. Takes no memory.
    pub(crate) fn new(alloc: Global) -> Self
        ensures { result.tasks ≡ [] }
    {
        Roster {
            places: Table::new(alloc, 0),
            tasks: Vec::new(alloc),
        }
    }

    /// Makes room for this many tasks more.
    ///
    /// # Errors
    ///
    /// Where memory is refused.
    pub(crate) fn reserve(&mut self, more: usize) -> Result<(), AllocError>
        ensures tasks { self.new.tasks ≡ self.old.tasks }
        ensures numbers { self.new.numbers ≡ self.old.numbers }
        ensures room { OnOk result (more ≤ self.new.spare) }
    {
        self.tasks.reserve(more)
    }

    /// Makes room for a task of this number.
    ///
    /// # Errors
    ///
    /// Where memory is refused.
    pub(crate) fn reserve_task(&mut self, task: u32) -> Result<(), AllocError>
        requires { task ≤ LARGEST_TASK }
        ensures tasks { self.new.tasks ≡ self.old.tasks }
        ensures spare { self.new.spare ≡ self.old.spare }
        ensures grows { self.old.numbers ≤ self.new.numbers }
        ensures room { OnOk result (task < self.new.numbers) }
    {
        self.places.reserve(task)
    }

    /// Makes room for the tasks that join by these events.
    ///
    /// # Errors
    ///
    /// Where memory is refused.
    pub(crate) fn reserve_joins(&mut self, events: &[Numbered]) -> Result<(), AllocError>
        requires { AllJoinBelow (LARGEST_TASK + 1) events.now }
        ensures tasks { self.new.tasks ≡ self.old.tasks }
        ensures spare { self.new.spare ≡ self.old.spare }
        ensures room { OnOk result (AllJoinBelow self.new.numbers events.now) }
    {
        for x in events {
            if let Event::Join { task, .. } = x.event {
                self.reserve_task(number_of(task))?;
            }
        }
        Ok(())
    }

    /// The member of this number.
    pub(crate) fn get(&self, task: u32) -> Option<&Member>
        requires { task ≤ LARGEST_TASK }
        ensures { option_copied result ≡ member_in self.now.tasks task }
    {
        let Some(place) = self.place_of(task) else {
            return None;
        };
        Some(&self.tasks[place].member)
    }

    /// Adds a task, which is not inside yet.
    pub(crate) fn push(&mut self, task: u32, member: Member)
        requires number { task < self.old.numbers }
        requires absent { member_in self.old.tasks task ≡ None }
        requires room { 1 ≤ self.old.spare }
        requires few { length self.old.tasks < MOST_EVENTS }
        ensures tasks { self.new.tasks ≡ self.old.tasks ++ record { task = task; member = member } ∷ [] }
        ensures spare { self.old.spare ≤ self.new.spare + 1 }
        ensures numbers { self.new.numbers ≡ self.old.numbers }
    {
        self.places.set(task, self.tasks.len() as u16);
        self.tasks.push_reserved(KeptTask { task, member });
    }

    /// Holds back the task's next subtask by this many slots, and answers the member as it is then.
    pub(crate) fn delay(&mut self, task: u32, by: u64) -> Option<Member>
        requires number { task ≤ LARGEST_TASK }
        requires fits { ForSome (member_in self.old.tasks task) (λ m. m.shift + by < 2 ^ 64) }
        ensures tasks { self.new.tasks ≡ changed_tasks task (member_after_delay by) self.old.tasks }
        ensures member { result ≡ member_in self.new.tasks task }
        ensures spare { self.new.spare ≡ self.old.spare }
        ensures numbers { self.new.numbers ≡ self.old.numbers }
    {
        let Some(place) = self.place_of(task) else {
            return None;
        };
        let kept = &mut self.tasks[place];
        kept.member.shift += by;
        Some(kept.member)
    }

    /// Notes that this subtask of the task ran.
    pub(crate) fn run(&mut self, task: u32, sub: u64)
        requires { task ≤ LARGEST_TASK }
        ensures tasks { self.new.tasks ≡ changed_tasks task (member_after_run sub) self.old.tasks }
        ensures spare { self.new.spare ≡ self.old.spare }
        ensures numbers { self.new.numbers ≡ self.old.numbers }
    {
        let Some(place) = self.place_of(task) else {
            return;
        };
        let kept = &mut self.tasks[place];
        kept.member.done = sub;
        kept.member.last = kept.member.shift;
    }

    /// Takes the task out.
    pub(crate) fn remove(&mut self, task: u32)
        requires number { task ≤ LARGEST_TASK }
        requires few { length self.old.tasks ≤ MOST_EVENTS }
        ensures tasks { self.new.tasks ≡ other_tasks task self.old.tasks }
        ensures spare { self.old.spare ≤ self.new.spare }
        ensures numbers { self.new.numbers ≡ self.old.numbers }
    {
        let Some(place) = self.place_of(task) else {
            return;
        };
        let _ = self.tasks.remove(place);
        renumber(&mut self.places, &self.tasks, place);
    }

    /// Where its memory comes from.
    pub(crate) fn allocator(&self) -> Global {
        *self.tasks.allocator()
    }

    /// The same tasks, in the memory of as many, and of the numbers up to the greatest for which there was room.
    ///
    /// # Errors
    ///
    /// Where memory is refused.
    pub(crate) fn copy(&self) -> Result<Self, AllocError>
        ensures { IfOk result (λ r. r.tasks ≡ self.now.tasks) }
    {
        Ok(Roster {
            places: self.places.copy()?,
            tasks: Vec::from_slice(self.allocator(), &self.tasks)?,
        })
    }

    /// The tasks as they are saved, in the order of their joins.
    ///
    /// # Errors
    ///
    /// Where memory is refused.
    pub(crate) fn save(&self) -> Result<Vec<SavedTask>, AllocError>
        requires { All IsInside self.now.tasks }
        ensures { IfOk result (λ saved. saved.items ≡ map saved_of self.now.tasks) }
    {
        let mut saved = Vec::with_capacity(self.allocator(), self.tasks.len())?;
        for kept in &self.tasks {
            saved.push_reserved(SavedTask::of(kept));
        }
        Ok(saved)
    }

    /// Where the task of this number stands.
    fn place_of(&self, task: u32) -> Option<usize>
        requires { task ≤ LARGEST_TASK }
        ensures { MatchOption result (HasNoTask task self.now.tasks) (IsOnlyAt task self.now.tasks) }
    {
        let place = usize::from(self.places.get(task));
        if place >= self.tasks.len() {
            return None;
        }
        if self.tasks[place].task != task {
            return None;
        }
        Some(place)
    }
}

/// Writes down where each task from this place on stands.
fn renumber(places: &mut Table<u16>, tasks: &[KeptTask], from: usize)
    requires few { length tasks.now ≤ MOST_EVENTS }
    requires listed { IsListedTo from places.old tasks.now }
    ensures listed { IsListedTo (length tasks.now) places.new tasks.now }
    ensures size { size_of places.new ≡ size_of places.old }
{
    for place in from..tasks.len() {
        let kept = tasks[place];
        places.set(kept.task, place as u16);
    }
}
