ghost use Rattle.std.specs.Prelude.{◌≡◌, IfSome};
ghost use Rattle.std.specs.Option.{is_some};
ghost use Rattle.pf_scenario.specs.Packed.{has_packed, unpacked};

use crate::event::Event;

/// An event in 20 bytes, as tables of events keep it.
#[derive(Clone, Copy, Debug)]
pub enum PackedEvent {
    /// The task joins.
    Join {
        /// The task. It stands first, so that it shares four bytes with what tells the kinds apart.
        task: u16,
        /// The slot.
        slot: u32,
        /// The cost of its weight.
        cost: u32,
        /// The period of its weight.
        period: u32,
        /// How many slots before its release a subtask may run.
        early: u32,
    },
    /// The task leaves.
    Leave {
        /// The task.
        task: u16,
        /// The slot.
        slot: u32,
    },
    /// The task is delayed.
    Delay {
        /// The task.
        task: u16,
        /// The slot.
        slot: u32,
        /// By how many slots.
        by: u32,
    },
    /// The number of processors in use is limited.
    Limit {
        /// The slot.
        slot: u32,
        /// How many are in use.
        count: u32,
    },
}

const _: () = prove!(size_of::<PackedEvent>() == 20);

impl PackedEvent {
    /// The event, packed: `None` where its task has no room in 16 bits, or another number of its in 32. Each event within its
    /// limits has room.
    pub fn of(event: &Event) -> Option<Self>
        ensures some { is_some result ≡ has_packed event.now }
        ensures value { IfSome result (λ packed. unpacked packed ≡ event.now) }
    {
        Some(match *event {
            Event::Join {
                slot,
                task,
                cost,
                period,
                early,
            } => PackedEvent::Join {
                task: u16::try_from(task).ok()?,
                slot: u32::try_from(slot).ok()?,
                cost: u32::try_from(cost).ok()?,
                period: u32::try_from(period).ok()?,
                early: u32::try_from(early).ok()?,
            },
            Event::Leave { slot, task } => PackedEvent::Leave {
                task: u16::try_from(task).ok()?,
                slot: u32::try_from(slot).ok()?,
            },
            Event::Delay { slot, task, by } => PackedEvent::Delay {
                task: u16::try_from(task).ok()?,
                slot: u32::try_from(slot).ok()?,
                by: u32::try_from(by).ok()?,
            },
            Event::Limit { slot, count } => PackedEvent::Limit {
                slot: u32::try_from(slot).ok()?,
                count: u32::try_from(count).ok()?,
            },
        })
    }

    /// The event.
    pub fn event(self) -> Event
        ensures { result ≡ unpacked self }
    {
        match self {
            PackedEvent::Join {
                task,
                slot,
                cost,
                period,
                early,
            } => Event::Join {
                slot: slot.into(),
                task: task.into(),
                cost: cost.into(),
                period: period.into(),
                early: early.into(),
            },
            PackedEvent::Leave { task, slot } => Event::Leave {
                slot: slot.into(),
                task: task.into(),
            },
            PackedEvent::Delay { task, slot, by } => Event::Delay {
                slot: slot.into(),
                task: task.into(),
                by: by.into(),
            },
            PackedEvent::Limit { slot, count } => Event::Limit {
                slot: slot.into(),
                count: count.into(),
            },
        }
    }
}
