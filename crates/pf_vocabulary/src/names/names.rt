use crate::names::fault::NameFault;
use crate::names::name::Name;
use crate::names::named::Named;
use std::alloc::Global;
use std::marker::Model;

/// The names of tasks. A task has one at most, and a name one task. Contracts see them as the tasks with their names, in the
/// order of the tasks.
#[derive(Drop)]
pub struct Names {
    named: Vec<Named>,
}

impl Model for Names {
    ghost use Rattle.std.specs.Prelude.{List};
    ghost use Rattle.pf_vocabulary.specs.declared.names.named.Named.{Named};

    ghost Value = { List Named };

    ghost view = { λ n. n.named.items };
}

impl Names {
    ghost use Rattle.std.specs.Prelude.{◌≡◌, ◌≤◌, [], length, option_map};
    ghost use Rattle.pf_vocabulary.specs.Names.Names.{Gives, Goes, name_of, task_of};

    /// No names.
    pub fn new(alloc: Global) -> Self
        ensures { result ≡ [] }
    {
        Names {
            named: Vec::new(alloc),
        }
    }

    /// The tasks with their names, by task.
    pub fn all(&self) -> &[Named]
        ensures { result.now ≡ self.now }
    {
        &self.named
    }

    /// The name of a task.
    pub fn of_task(&self, task: u64) -> Option<&Name>
        ensures { option_map (λ name. name.now) result ≡ name_of self.now task }
    {
        for named in &self.named {
            if named.task == task {
                return Some(&named.name);
            }
        }
        None
    }

    /// The task with a name.
    pub fn task_of(&self, name: &[u8]) -> Option<u64>
        ensures { result ≡ task_of self.now name.now }
    {
        for named in &self.named {
            if named.name.is(name) {
                return Some(named.task);
            }
        }
        None
    }

    /// Gives a task a name.
    ///
    /// # Errors
    ///
    /// Where the task has a name or the name has a task, and where memory is refused: the names are then as before.
    pub fn give(&mut self, task: u64, name: Name) -> Result<(), NameFault>
        ensures { Gives result task name self.old self.new }
    {
        if self.of_task(task).is_some() {
            return Err(NameFault::HasName);
        }
        if let Some(other) = self.task_of(name.as_bytes()) {
            return Err(NameFault::IsOf(other));
        }
        let place = self.place_of(task);
        if self.named.insert(place, Named { task, name }).is_err() {
            return Err(NameFault::NoMemory);
        }
        Ok(())
    }

    /// Where the name of a task goes: before those of greater tasks.
    fn place_of(&self, task: u64) -> usize
        ensures within { result ≤ length self.now }
        ensures place { Goes self.now task result }
    {
        for (place, named) in self.named.iter().enumerate() {
            if task < named.task {
                return place;
            }
        }
        self.named.len()
    }
}
