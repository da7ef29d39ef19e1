ghost use Rattle.std.specs.Prelude.{◌≡◌};
ghost use Rattle.pf_scenario.specs.Event.{slot_of, kind_of, task_of};

/// Something that happens in a slot. Numbers are as a planner gives them: whether they are within their limits is
/// tried when a change is made.
#[derive(Clone, Copy, Debug, PartialEq, Eq)]
pub enum Event {
    /// The task joins with the weight cost/period. A subtask may run up to `early` slots before its release.
    Join {
        /// In slots, below the horizon.
        slot: u64,
        /// 1 to 4,095.
        task: u64,
        /// In quanta, 1 to the period.
        cost: u64,
        /// In slots; it divides the base.
        period: u64,
        /// In slots, 0 to 2^20.
        early: u64,
    },
    /// The task leaves.
    Leave {
        /// In slots, below the horizon.
        slot: u64,
        /// 1 to 4,095.
        task: u64,
    },
    /// The task's subtasks that have not run are held back.
    Delay {
        /// In slots, below the horizon.
        slot: u64,
        /// 1 to 4,095.
        task: u64,
        /// In slots, 1 to 2^20.
        by: u64,
    },
    /// From its slot on only the processors below `count` are in use, until the next limit.
    Limit {
        /// In slots, below the horizon.
        slot: u64,
        /// 1 to the number of processors.
        count: u64,
    },
}

impl Event {
    /// The slot in which it happens.
    pub fn slot(&self) -> u64
        ensures { result ≡ slot_of self.now }
    {
        match *self {
            Event::Join { slot, .. }
            | Event::Leave { slot, .. }
            | Event::Delay { slot, .. }
            | Event::Limit { slot, .. } => slot,
        }
    }

    /// The task that joins, leaves or is delayed. A limit has none.
    pub fn task(&self) -> Option<u64>
        ensures { result ≡ task_of self.now }
    {
        match *self {
            Event::Join { task, .. } | Event::Leave { task, .. } | Event::Delay { task, .. } => {
                Some(task)
            }
            Event::Limit { .. } => None,
        }
    }

    /// The place of its kind in the order of a slot: 0 for a limit, 1 for a leave, 2 for a join and 3 for a delay.
    pub fn kind(&self) -> u8
        ensures { result ≡ kind_of self.now }
    {
        match *self {
            Event::Limit { .. } => 0,
            Event::Leave { .. } => 1,
            Event::Join { .. } => 2,
            Event::Delay { .. } => 3,
        }
    }
}

/// An event with the number that it was given.
#[derive(Clone, Copy, Debug, PartialEq, Eq)]
pub struct Numbered {
    /// 1 to 1,048,575, given in rising order and never twice.
    pub id: u64,
    /// The event.
    pub event: Event,
}
