ghost use Rattle.std.specs.Prelude.{◌≡◌};
ghost use Rattle.pf_vocabulary.specs.Tasks.Listed.{is_between};

/// The task numbers from one to another, both of them among these.
#[derive(Clone, Copy, Debug, PartialEq, Eq)]
pub struct TaskRange {
    /// The least of them.
    pub first: u64,
    /// The greatest.
    pub last: u64,
}

impl TaskRange {
    /// Whether the task's number is one of them.
    pub fn has(&self, task: u64) -> bool
        ensures { result ≡ is_between task self.now }
    {
        self.first <= task && task <= self.last
    }
}
