ghost use Rattle.std.specs.Prelude.{◌≡◌, IfOk};
ghost use Rattle.serde_json.specs.View.{view};
ghost use Rattle.pf_full.specs.Full.{event_data, event_object, optional_data};

use crate::event_numbers::EventNumbers;
use pf_desk::snapshot::Snapshot;
use pf_report::elements::Elements;
use pf_scenario::event::{Event, Numbered};
use serde_json::{Value, json};
use std::alloc::{AllocError, Global};
use std::marker::Model;

/// A number, or null where there is none.
fn optional(number: Option<u64>) -> Value
    ensures { view result ≡ optional_data number }
{
    match number {
        Some(number) => Value::from(number),
        None => Value::Null,
    }
}

/// An event of this number, slot and kind as an object.
fn event_object(
    alloc: Global,
    id: u64,
    slot: u64,
    kind: &str,
    numbers: EventNumbers,
) -> Result<Value, AllocError>
    ensures { IfOk result (λ v. view v ≡ event_object id slot kind.now numbers) }
{
    json!(in alloc; {
        "by": optional(numbers.by),
        "cost": optional(numbers.cost),
        "count": optional(numbers.count),
        "early": optional(numbers.early),
        "event": id,
        "kind": kind,
        "period": optional(numbers.period),
        "slot": slot,
        "task": optional(numbers.task)
    })
}

/// An event as an object: null where its kind has no such number.
fn event_value(alloc: Global, numbered: Numbered) -> Result<Value, AllocError>
    ensures { IfOk result (λ v. view v ≡ event_data numbered) }
{
    let id = numbered.id;
    let slot = numbered.event.slot();
    match numbered.event {
        Event::Join {
            task,
            cost,
            period,
            early,
            ..
        } => {
            let numbers = EventNumbers::of_join(task, cost, period, early);
            event_object(alloc, id, slot, "join", numbers)
        }
        Event::Leave { task, .. } => {
            event_object(alloc, id, slot, "leave", EventNumbers::of_leave(task))
        }
        Event::Delay { task, by, .. } => {
            event_object(alloc, id, slot, "delay", EventNumbers::of_delay(task, by))
        }
        Event::Limit { count, .. } => {
            event_object(alloc, id, slot, "limit", EventNumbers::of_limit(count))
        }
    }
}

/// The events held, by number.
#[derive(Drop)]
pub struct EventRows {
    events: Vec<Numbered>,
}

impl Model for EventRows {
    ghost use Rattle.std.specs.Prelude.{List};
    ghost use Rattle.pf_scenario.specs.declared.event.Numbered.{Numbered};

    ghost Value = { List Numbered };

    ghost view = { λ r. r.events.items };
}

impl EventRows {
    ghost use Rattle.std.specs.Prelude.{◌≡◌, ◌∷◌, ◌+◌, ◌<◌, length, drop, IfOk};

    /// Those that a snapshot shows.
    ///
    /// # Errors
    ///
    /// Where memory is refused.
    pub fn of(alloc: Global, snapshot: &Snapshot) -> Result<Self, AllocError>
        ensures { IfOk result (λ r. r ≡ snapshot.now.state.plan.events) }
    {
        let mut events = Vec::new(alloc);
        for numbered in snapshot.events() {
            events.push(numbered)?;
        }
        Ok(EventRows { events })
    }

    /// The one at a place.
    fn get(&self, at: u64) -> Numbered
        requires { at < length self.now }
        ensures { drop at self.now ≡ result ∷ drop (at + 1) self.now }
    {
        self.events[at as usize]
    }

    /// How many there are.
    fn len(&self) -> u64
        ensures { result ≡ length self.now }
    {
        self.events.len() as u64
    }
}

impl Elements for EventRows {
    ghost use Rattle.std.specs.Prelude.{length, drop, map};
    ghost use Rattle.pf_full.specs.Full.{event_data};

    ghost count = { λ r. length r };

    ghost rest = { λ r at. map event_data (drop at r) };

    fn count(&self) -> u64 {
        self.len()
    }

    fn element(&self, alloc: Global, at: u64) -> Result<Value, AllocError> {
        event_value(alloc, self.get(at))
    }
}
