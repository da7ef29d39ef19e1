ghost use Rattle.std.specs.Prelude.{◌≡◌, ◌≤◌, nat_lt, count_by, length, IfOk};
ghost use Rattle.std.specs.List.Sorted.{IsNonDecreasing};
ghost use Rattle.std.specs.Option.{option_to_list};
ghost use Rattle.pf_tally.specs.Held.{next_in, held_by, held_from, AreDelays};

use crate::admitted::Admitted;
use pf_scenario::event::{Event, Numbered};
use std::alloc::{AllocError, Global};

/// A delay of a task, with what it found.
#[derive(Clone, Copy)]
pub struct Held {
    /// The subtask that was next, from 1.
    pub sub: u64,
    /// Its shift before the delay, in slots.
    pub shift: u64,
    /// By how many slots it and all later ones are held back.
    pub by: u64,
}

/// How many of the slots, which rise, are below t.
pub fn slots_below(slots: &[u64], t: u64) -> u64
    requires { IsNonDecreasing slots.now }
    ensures value { result ≡ count_by (λ q. nat_lt q t) slots.now }
    ensures bound { result ≤ length slots.now }
{
    slots.partition_point(|slot| *slot < t) as u64
}

/// What the event holds back of the task, which ran in the slots `ran`, where `shift` is the shift before the event.
fn held_delay(task: Admitted, ran: &[u64], shift: u64, numbered: &Numbered) -> Option<Held>
    requires { IsNonDecreasing ran.now }
    ensures { option_to_list result ≡ held_by (next_in ran.now) task shift numbered.now.event }
{
    match numbered.event {
        Event::Delay {
            slot,
            task: number,
            by,
        } if number == task.task => Some(Held {
            sub: slots_below(ran, slot) + 1,
            shift,
            by,
        }),
        _ => None,
    }
}

/// The delays of the task among these events, where it ran in the slots `ran`.
pub fn held_delays(
    alloc: Global,
    task: Admitted,
    ran: &[u64],
    events: &[Numbered],
) -> Result<Vec<Held>, AllocError>
    requires rising { IsNonDecreasing ran.now }
    requires delays { AreDelays task events.now }
    ensures { IfOk result (λ v. v.items ≡ held_from (next_in ran.now) task task.slot events.now) }
{
    let mut delays = Vec::new(alloc);
    let mut shift = task.slot;
    for numbered in events {
        if let Some(held) = held_delay(task, ran, shift, numbered) {
            delays.push(held)?;
            shift += held.by;
        }
    }
    Ok(delays)
}
