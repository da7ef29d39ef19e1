use crate::drawing::Drawing;
use pf_vocabulary::tasks::task_list::TaskList;
use std::alloc::{AllocError, Global};
use std::marker::Model;

/// What a picture tells of the listed tasks: of those that it shows, and of the others, which have boxes in the rows of the
/// processors alone.
#[derive(Drop)]
pub struct TaskDrawings {
    shown: Vec<Drawing>,
    others: Vec<Drawing>,
}

impl Model for TaskDrawings {
    ghost use Rattle.pf_picture.specs.Shown.{TaskDrawings};

    ghost Value = { TaskDrawings };

    ghost view = { λ d. record { shown = d.shown.items; others = d.others.items } };
}

impl TaskDrawings {
    ghost use Rattle.std.specs.Prelude.{◌≡◌, IfOk};
    ghost use Rattle.pf_picture.specs.Shown.{all_shown, parted};

    /// All of these tasks are shown.
    pub(crate) fn all(alloc: Global, drawings: Vec<Drawing>) -> Self
        ensures { result ≡ all_shown drawings.items }
    {
        TaskDrawings {
            shown: drawings,
            others: Vec::new(alloc),
        }
    }

    /// Those of these tasks that are in the list are shown.
    ///
    /// # Errors
    ///
    /// Where memory is refused.
    pub(crate) fn of(
        alloc: Global,
        drawings: Vec<Drawing>,
        tasks: &TaskList,
    ) -> Result<Self, AllocError>
        ensures { IfOk result (λ parts. parts ≡ parted tasks.now drawings.items) }
    {
        let mut shown = Vec::new(alloc);
        let mut others = Vec::new(alloc);
        for drawing in drawings {
            if tasks.has(u64::from(drawing.listed().task())) {
                shown.push(drawing)?;
            } else {
                others.push(drawing)?;
            }
        }
        Ok(TaskDrawings { shown, others })
    }

    /// What is told of the tasks that are shown, by their numbers.
    pub(crate) fn shown(&self) -> &[Drawing]
        ensures { result.now ≡ self.now.shown }
    {
        &self.shown
    }

    /// What is told of the others, by their numbers.
    pub(crate) fn others(&self) -> &[Drawing]
        ensures { result.now ≡ self.now.others }
    {
        &self.others
    }
}
