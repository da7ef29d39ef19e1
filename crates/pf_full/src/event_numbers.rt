ghost use Rattle.std.specs.Prelude.{◌≡◌, None, Some};

/// The numbers that an event has beside its own and its slot, as far as its kind has them.
#[derive(Clone, Copy)]
pub struct EventNumbers {
    /// The task that joins, leaves or is delayed.
    pub task: Option<u64>,
    /// The cost of a join.
    pub cost: Option<u64>,
    /// Its period.
    pub period: Option<u64>,
    /// By how many slots it may run early.
    pub early: Option<u64>,
    /// By how many slots a task is delayed.
    pub by: Option<u64>,
    /// How many processors a limit leaves.
    pub count: Option<u64>,
}

impl EventNumbers {
    /// None.
    fn none() -> Self
        ensures { result ≡ record { task = None; cost = None; period = None; early = None; by = None; count = None } }
    {
        EventNumbers {
            task: None,
            cost: None,
            period: None,
            early: None,
            by: None,
            count: None,
        }
    }

    /// Those of a join.
    pub fn of_join(task: u64, cost: u64, period: u64, early: u64) -> Self
        ensures { result ≡ record { task = Some task; cost = Some cost; period = Some period; early = Some early; by = None; count = None } }
    {
        EventNumbers {
            task: Some(task),
            cost: Some(cost),
            period: Some(period),
            early: Some(early),
            ..EventNumbers::none()
        }
    }

    /// That of a leave.
    pub fn of_leave(task: u64) -> Self
        ensures { result ≡ record { task = Some task; cost = None; period = None; early = None; by = None; count = None } }
    {
        EventNumbers {
            task: Some(task),
            ..EventNumbers::none()
        }
    }

    /// Those of a delay.
    pub fn of_delay(task: u64, by: u64) -> Self
        ensures { result ≡ record { task = Some task; cost = None; period = None; early = None; by = Some by; count = None } }
    {
        EventNumbers {
            task: Some(task),
            by: Some(by),
            ..EventNumbers::none()
        }
    }

    /// That of a limit.
    pub fn of_limit(count: u64) -> Self
        ensures { result ≡ record { task = None; cost = None; period = None; early = None; by = None; count = Some count } }
    {
        EventNumbers {
            count: Some(count),
            ..EventNumbers::none()
        }
    }
}
