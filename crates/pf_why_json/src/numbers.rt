use pf_scenario::event::Event;

/// The numbers that a kind of event has.
#[derive(Clone, Copy)]
pub(crate) struct EventNumbers {
    pub(crate) by: Option<u64>,
    pub(crate) cost: Option<u64>,
    pub(crate) count: Option<u64>,
    pub(crate) early: Option<u64>,
    pub(crate) period: Option<u64>,
    pub(crate) task: Option<u64>,
}

impl EventNumbers {
    ghost use Rattle.std.specs.Prelude.{◌≡◌, None};
    ghost use Rattle.pf_why_json.specs.Events.{numbers_of};

    /// None at all.
    fn none() -> Self
        ensures { result ≡ record { by = None; cost = None; count = None; early = None; period = None; task = None } }
    {
        EventNumbers {
            by: None,
            cost: None,
            count: None,
            early: None,
            period: None,
            task: None,
        }
    }

    /// Those of an event.
    pub(crate) fn of(event: Event) -> Self
        ensures { result ≡ numbers_of event }
    {
        let mut numbers = EventNumbers::none();
        match event {
            Event::Join {
                task,
                cost,
                period,
                early,
                ..
            } => {
                numbers.task = Some(task);
                numbers.cost = Some(cost);
                numbers.period = Some(period);
                numbers.early = Some(early);
            }
            Event::Leave { task, .. } => numbers.task = Some(task),
            Event::Delay { task, by, .. } => {
                numbers.task = Some(task);
                numbers.by = Some(by);
            }
            Event::Limit { count, .. } => numbers.count = Some(count),
        }
        numbers
    }
}
