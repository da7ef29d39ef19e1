ghost use Rattle.std.specs.Prelude.{◌≡◌, ◌<◌, ◌≤◌, ◌^◌, [], ◌∷◌, length};
ghost use Rattle.std.specs.List.Sorted.{IsNonDecreasing};
ghost use Rattle.pf_scenario.specs.declared.limits.TheConstants.{LONGEST_DELAY};
ghost use Rattle.pf_scenario.specs.declared.settings.TheConstants.{WIDE_HORIZON};
ghost use Rattle.pf_tally.specs.Held.{CanTally, delay_from, next_in};
ghost use Rattle.pf_why.specs.Upcoming.{halt_among, halt_from, halt_held};

use pf_scenario::event::{Event, Numbered};
use pf_tally::admitted::Admitted;
use pf_tally::held::slots_below;
use pf_window::release;

/// A stop of a task's clock. Times are slots.
#[derive(Clone, Copy)]
pub struct Halt {
    /// The number of the delay that stops it.
    pub event: u64,
    /// The first slot in which it is stopped.
    pub from: u64,
    /// The first in which it runs again.
    pub to: u64,
}

/// These slots as a stop, where slot t is one of them.
fn halt_in(event: u64, from: u64, to: u64, t: u64) -> Option<Halt>
    ensures { result ≡ halt_among event t (record { start = from; end = to } ∷ []) }
{
    if from <= t && t < to {
        Some(Halt { event, from, to })
    } else {
        None
    }
}

/// By how much the event delays the task.
fn delay_from(task: Admitted, event: &Event) -> u64
    ensures { result ≡ delay_from task event.now }
{
    match *event {
        Event::Delay {
            task: number,
            by,
            ..
        } if number == task.task => by,
        _ => 0,
    }
}

/// The stop by the event that slot t is in, of the clock of a task that ran in the slots `ran`; `shift` is its shift before
/// the event.
fn halt_held(task: Admitted, ran: &[u64], t: u64, shift: u64, numbered: &Numbered) -> Option<Halt>
    requires rising { IsNonDecreasing ran.now }
    requires few { length ran.now ≤ WIDE_HORIZON }
    requires shift { shift < 2 ^ 40 }
    requires by { delay_from task numbered.now.event ≤ LONGEST_DELAY }
    ensures { result ≡ halt_held (next_in ran.now) task t shift numbered.now }
{
    match numbered.event {
        Event::Delay {
            slot,
            task: number,
            by,
        } if number == task.task => {
            let next = slots_below(ran, slot) + 1;
            let from = release(task.weight, next as u32) + shift;
            halt_in(numbered.id, from, from + by, t)
        }
        _ => None,
    }
}

/// The stop that slot t is in, of the clock of a task that ran in the slots `ran`, where these events are in force.
pub(crate) fn halt_at(task: Admitted, ran: &[u64], events: &[Numbered], t: u64) -> Option<Halt>
    requires { CanTally task ran.now events.now WIDE_HORIZON }
    ensures { result ≡ halt_from (next_in ran.now) task t task.slot events.now }
{
    let mut shift = task.slot;
    for numbered in events {
        let halt = halt_held(task, ran, t, shift, numbered);
        if halt.is_some() {
            return halt;
        }
        shift += delay_from(task, &numbered.event);
    }
    None
}
