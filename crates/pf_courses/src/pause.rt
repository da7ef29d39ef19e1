ghost use Rattle.std.specs.Prelude.{◌≡◌, map, All, IfOk};
ghost use Rattle.std.specs.List.Sorted.{IsNonDecreasingBy};
ghost use Rattle.pf_tally.specs.Clock.{is_stopped};
ghost use Rattle.pf_tally.specs.Held.{IsSmall, stop_of};

use pf_tally::held::Held;
use pf_weight::weight::Weight;
use pf_window::release;
use std::alloc::{AllocError, Global};
use std::marker::Model;

/// Slots in which a delay stops a task's clock, from `start` up to but not including `end`.
#[derive(Clone, Copy)]
pub struct Pause {
    /// The first of them.
    pub start: u64,
    /// The first slot after them.
    pub end: u64,
}

impl Model for Pause {
    ghost use Rattle.pf_tally.specs.Clock.{Stop};

    ghost Value = { Stop };

    ghost view = { λ p. record { start = p.start; end = p.end } };

    ghost inverse = { λ s. record { start = s.start; end = s.end } };
}

/// Whether slot t is in one of these stops, which come one after another.
pub(crate) fn is_stopped(stops: &[Pause], t: u64) -> bool
    requires starts { IsNonDecreasingBy (λ s. s.start) stops.now }
    requires ends { IsNonDecreasingBy (λ s. s.end) stops.now }
    ensures { result ≡ is_stopped stops.now t }
{
    let begun = stops.partition_point(|stop| stop.start <= t);
    let ended = stops.partition_point(|stop| stop.end <= t);
    ended < begun
}

/// Where a delay stops the clock of a task of this weight.
fn stop_of(weight: Weight, held: Held) -> Pause
    requires { IsSmall held }
    ensures { result ≡ stop_of weight held }
{
    let start = release(weight, held.sub as u32) + held.shift;
    Pause {
        start,
        end: start + held.by,
    }
}

/// Where these delays stop the clock of a task of this weight.
pub(crate) fn stops_of(
    alloc: Global,
    weight: Weight,
    delays: &[Held],
) -> Result<Vec<Pause>, AllocError>
    requires { All IsSmall delays.now }
    ensures { IfOk result (λ v. v.items ≡ map (stop_of weight) delays.now) }
{
    let mut stops = Vec::with_capacity(alloc, delays.len())?;
    for held in delays {
        stops.push(stop_of(weight, *held))?;
    }
    Ok(stops)
}
