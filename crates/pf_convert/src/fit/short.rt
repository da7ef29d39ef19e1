ghost use Rattle.std.specs.Prelude.{◌≡◌, ◌^◌, ◌≤◌, IfOk};
ghost use Rattle.pf_convert.specs.Fit.Short.{is_long, places_beside, short_places, short_text, step_of, steps_to};

use crate::list::time::places_of;
use pf_text::columns::decimals::push_fewest_places;
use pf_vocabulary::names::unit::Unit;
use std::alloc::{AllocError, Global};

/// To which side a long time is rounded.
#[derive(Clone, Copy)]
pub enum Side {
    /// Up.
    Up,
    /// Down.
    Down,
}

/// How many decimals leave 7 bytes beside this whole part and a point.
fn places_beside(whole: u128) -> u32
    ensures { result ≡ places_beside whole }
{
    if whole < 10 {
        5
    } else if whole < 100 {
        4
    } else if whole < 1000 {
        3
    } else if whole < 10_000 {
        2
    } else if whole < 100_000 {
        1
    } else {
        0
    }
}

/// This power of ten.
fn power_of_ten(places: u32) -> u128
    requires { places ≤ 9 }
    ensures value { result ≡ 10 ^ places }
    ensures some { 1 ≤ result }
{
    match places {
        0 => 1,
        1 => 10,
        2 => 100,
        3 => 1000,
        4 => 10_000,
        5 => 100_000,
        6 => 1_000_000,
        7 => 10_000_000,
        8 => 100_000_000,
        _ => 1_000_000_000,
    }
}

/// How many decimals a time is shown with at most.
fn short_places(unit: Unit, time: u128) -> u32
    ensures value { result ≡ short_places unit time }
    ensures few { result ≤ 9 }
{
    let places = places_of(unit);
    places_beside(time / power_of_ten(places)).min(places)
}

/// What the last of them counts, in nanoseconds.
fn step_of(unit: Unit, time: u128) -> u128
    ensures value { result ≡ step_of unit time }
    ensures some { 1 ≤ result }
{
    power_of_ten(places_of(unit) - short_places(unit, time))
}

/// Whether a time has more decimals than that, so that it is rounded.
pub fn is_long(unit: Unit, time: u128) -> bool
    ensures { result ≡ is_long unit time }
{
    time % step_of(unit, time) != 0
}

/// How many steps a time is, rounded to a side.
fn steps_to(side: Side, time: u128, step: u128) -> u128
    requires { 1 ≤ step }
    ensures { result ≡ steps_to side time step }
{
    match side {
        Side::Up => time.div_ceil(step),
        Side::Down => time / step,
    }
}

/// The cell of a time without its unit, in 7 bytes where its whole part has no more: rounded to a side where it is long.
///
/// # Errors
///
/// Where memory is refused.
#[tactic(auto, unfolding(crate::specs::Fit::Short::short_text))]
pub fn short_cell(alloc: Global, unit: Unit, side: Side, time: u128) -> Result<Vec<u8>, AllocError>
    ensures { IfOk result (λ cell. cell.items ≡ short_text unit side time) }
{
    let steps = steps_to(side, time, step_of(unit, time));
    let mut cell = Vec::new(alloc);
    push_fewest_places(&mut cell, short_places(unit, time), steps)?;
    Ok(cell)
}
