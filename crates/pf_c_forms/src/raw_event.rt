ghost use Rattle.std.specs.Prelude.{◌≡◌};
ghost use Rattle.pf_c_forms.specs.Asked.{event_in};
ghost use Rattle.pf_c_forms.specs.Events.{raw_event};

use pf_scenario::event::Event;

/// The kind of a limit.
pub const LIMIT: u64 = 0;

/// The kind of a leave.
pub const LEAVE: u64 = 1;

/// The kind of a join.
pub const JOIN: u64 = 2;

/// The kind of a delay.
pub const DELAY: u64 = 3;

/// An event as C gives it. Only the fields that its kind has are read.
#[repr(C)]
#[derive(Clone, Copy)]
pub struct RawEvent {
    /// `LIMIT`, `LEAVE`, `JOIN` or `DELAY`.
    pub kind: u64,
    /// In slots.
    pub slot: u64,
    /// The task's number, but of a limit.
    pub task: u64,
    /// Of a join, in quanta.
    pub cost: u64,
    /// Of a join, in slots.
    pub period: u64,
    /// Of a join, in slots.
    pub early: u64,
    /// Of a delay, in slots.
    pub by: u64,
    /// Of a limit, the processors in use.
    pub count: u64,
}

impl RawEvent {
    /// The event for C: what its kind does not have is 0.
    pub fn of(event: Event) -> RawEvent
        ensures { result ≡ raw_event event }
    {
        let none = RawEvent {
            kind: LIMIT,
            slot: event.slot(),
            task: 0,
            cost: 0,
            period: 0,
            early: 0,
            by: 0,
            count: 0,
        };
        match event {
            Event::Limit { count, .. } => RawEvent { count, ..none },
            Event::Leave { task, .. } => RawEvent {
                kind: LEAVE,
                task,
                ..none
            },
            Event::Join {
                task,
                cost,
                period,
                early,
                ..
            } => RawEvent {
                kind: JOIN,
                task,
                cost,
                period,
                early,
                ..none
            },
            Event::Delay { task, by, .. } => RawEvent {
                kind: DELAY,
                task,
                by,
                ..none
            },
        }
    }

    /// The event that is meant; none where its kind is unknown.
    pub fn event(self) -> Option<Event>
        ensures { result ≡ event_in self }
    {
        let slot = self.slot;
        let task = self.task;
        match self.kind {
            LIMIT => Some(Event::Limit {
                slot,
                count: self.count,
            }),
            LEAVE => Some(Event::Leave { slot, task }),
            JOIN => Some(Event::Join {
                slot,
                task,
                cost: self.cost,
                period: self.period,
                early: self.early,
            }),
            DELAY => Some(Event::Delay {
                slot,
                task,
                by: self.by,
            }),
            _ => None,
        }
    }
}
