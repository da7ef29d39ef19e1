use crate::course::Course;
use std::marker::Model;

/// A listed task: its course, if it was admitted, and the slots of its denied events.
#[derive(Drop)]
pub struct Listed {
    task: u32,
    course: Option<Course>,
    denied: Vec<u64>,
}

impl Model for Listed {
    ghost use Rattle.pf_courses.specs.Listing.{Listing};

    ghost Value = { Listing };

    ghost view = { λ l. record { task = l.task; track = l.course; denied = l.denied.items } };
}

impl Listed {
    ghost use Rattle.std.specs.Prelude.{◌≡◌, MatchOption};

    /// A listed task.
    pub fn new(task: u32, course: Option<Course>, denied: Vec<u64>) -> Self
        ensures { result ≡ record { task = task; track = course; denied = denied.items } }
    {
        Listed {
            task,
            course,
            denied,
        }
    }

    /// Its number.
    pub fn task(&self) -> u32
        ensures { result ≡ self.now.task }
    {
        self.task
    }

    /// Its course, if it was admitted.
    pub fn course(&self) -> Option<&Course>
        ensures { MatchOption result (self.now.track ≡ None) (λ course. self.now.track ≡ Some course.now) }
    {
        self.course.as_ref()
    }

    /// The slots of its denied events, in the order of their numbers.
    pub fn denied(&self) -> &[u64]
        ensures { result.now ≡ self.now.denied }
    {
        &self.denied
    }
}
