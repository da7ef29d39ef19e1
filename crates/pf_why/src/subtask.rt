/// The next subtask of a task at a slot's choice, with its windows as they are shifted there. Times are slots.
#[derive(Clone, Copy)]
pub struct Subtask {
    /// The task's number, 1 to 4,095.
    pub task: u64,
    /// Its own number, from 1.
    pub sub: u64,
    /// Its release.
    pub release: u64,
    /// Its deadline.
    pub deadline: u64,
    /// 1 where its window and the next one share a slot, else 0.
    pub bit: u64,
    /// Its group deadline, 0 for a light task.
    pub group: u64,
    /// The first slot in which it may run, once the subtask before it has run.
    pub first: u64,
}

impl Subtask {
    ghost use Rattle.std.specs.Prelude.{◌≡◌};
    ghost use Rattle.pf_why.specs.Ranking.{priority_of};

    /// The group deadline, where the order looks at it: beside the bit 1; else 0.
    pub(crate) fn counted_group(&self) -> u64
        ensures { result ≡ (priority_of self.now).group }
    {
        if self.bit == 1 { self.group } else { 0 }
    }
}
