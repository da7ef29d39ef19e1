use crate::tasks::task_range::TaskRange;
use pf_weight::task::LARGEST_TASK;
use std::alloc::{AllocError, Global};
use std::marker::Model;

/// The tasks of some ranges, which may overlap and stand in any order.
#[derive(Debug, Drop)]
pub struct TaskList {
    ranges: Vec<TaskRange>,
}

impl Model for TaskList {
    ghost use Rattle.std.specs.Prelude.{List};
    ghost use Rattle.pf_vocabulary.specs.declared.tasks.task_range.TaskRange.{TaskRange};

    ghost Value = { List TaskRange };

    ghost view = { λ l. l.ranges.items };
}

impl TaskList {
    ghost use Rattle.std.specs.Prelude.{◌≡◌, IfOk};
    ghost use Rattle.pf_vocabulary.specs.Tasks.Listed.{all_tasks, is_listed};

    /// The tasks of these ranges.
    pub fn new(ranges: Vec<TaskRange>) -> Self
        ensures { result ≡ ranges.items }
    {
        TaskList { ranges }
    }

    /// All tasks.
    ///
    /// # Errors
    ///
    /// Where memory is refused.
    pub fn all(alloc: Global) -> Result<Self, AllocError>
        ensures { IfOk result (λ list. list ≡ all_tasks) }
    {
        let mut ranges = Vec::new(alloc);
        ranges.push(TaskRange {
            first: 1,
            last: LARGEST_TASK,
        })?;
        Ok(TaskList { ranges })
    }

    /// Whether the task is one of them.
    pub fn has(&self, task: u64) -> bool
        ensures { result ≡ is_listed self.now task }
    {
        self.ranges.iter().any(|range| range.has(task))
    }
}
