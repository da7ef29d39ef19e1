ghost use Rattle.std.specs.Prelude.{◌≡◌, ◌++◌, ◌≤◌, ◌^◌, OnOk};
ghost use Rattle.pf_picture.specs.Lane.{IsLane};
ghost use Rattle.pf_picture.specs.Lines.{lag_at, lag_level, lag_path, lag_start, lag_step, lag_steps, lag_text, lag_y};

use crate::element::push_element;
use crate::lane::Lane;
use crate::shapes::push_stretch;
use pf_courses::course::Course;
use std::alloc::{AllocError, Global};

/// The lag before slot t, times the period.
pub(crate) fn lag_at(course: &Course, t: u64) -> i64
    requires first { course.now.joined ≤ t }
    requires last { t ≤ course.now.end }
    ensures { result ≡ lag_at course.now t }
{
    course.lags()[(t - course.joined()) as usize]
}

/// Where a lag lies, where `unit` is the greatest that a strip has room for.
fn lag_level(middle: u128, unit: u128, lag: i64) -> u128
    requires middle { middle ≤ 2 ^ 101 }
    requires some { 1 ≤ unit }
    ensures { result ≡ lag_level middle unit lag }
{
    let height = 14 * u128::from(lag.unsigned_abs());
    if lag >= 0 {
        middle.saturating_sub(height / unit)
    } else {
        middle + height.div_ceil(unit)
    }
}

/// Where the lag before slot t lies.
#[tactic(auto, unfolding(crate::specs::Lines::lag_y))]
fn lag_y(lane: &Lane, course: &Course, t: u64) -> u128
    requires lane { IsLane lane.now }
    requires first { course.now.joined ≤ t }
    requires last { t ≤ course.now.end }
    ensures { result ≡ lag_y lane.now course.now t }
{
    let unit = u128::from(course.weight().period()) * u128::from(lane.scale.strips());
    lag_level(lane.top + 50, unit, lag_at(course, t))
}

/// Appends the lag before slot t to its path.
#[tactic(auto, unfolding(crate::specs::Lines::lag_step))]
fn push_step(
    alloc: Global,
    text: &mut Vec<u8>,
    lane: &Lane,
    course: &Course,
    t: u64,
) -> Result<(), AllocError>
    requires lane { IsLane lane.now }
    requires first { course.now.joined ≤ t }
    requires last { t ≤ course.now.end }
    requires from { lane.now.scale.from ≤ t }
    requires to { t ≤ lane.now.scale.to }
    ensures { OnOk result (text.new.items ≡ text.old.items ++ lag_step lane.now course.now t) }
{
    let x = lane.scale.x(t);
    let y = lag_y(lane, course, t);
    let step = format!(in alloc; "H{x}V{y}")?;
    push_element(text, &step)
}

/// Appends the beginning of the path of the lags, before slot `first`.
#[tactic(auto, unfolding(crate::specs::Lines::lag_start))]
fn push_start(
    alloc: Global,
    text: &mut Vec<u8>,
    lane: &Lane,
    course: &Course,
    first: u64,
) -> Result<(), AllocError>
    requires lane { IsLane lane.now }
    requires first { course.now.joined ≤ first }
    requires last { first ≤ course.now.end }
    requires from { lane.now.scale.from ≤ first }
    requires to { first ≤ lane.now.scale.to }
    ensures { OnOk result (text.new.items ≡ text.old.items ++ lag_start lane.now course.now first) }
{
    let x = lane.scale.x(first);
    let y = lag_y(lane, course, first);
    let start = format!(in alloc; "<path class=\"k\" d=\"M{x} {y}")?;
    push_element(text, &start)
}

/// Appends the lags before the slots after `first`, up to `last`.
fn push_steps(
    alloc: Global,
    text: &mut Vec<u8>,
    lane: &Lane,
    course: &Course,
    first: u64,
    last: u64,
) -> Result<(), AllocError>
    requires lane { IsLane lane.now }
    requires first { course.now.joined ≤ first }
    requires last { last ≤ course.now.end }
    requires rises { first ≤ last }
    requires from { lane.now.scale.from ≤ first }
    requires to { last ≤ lane.now.scale.to }
    requires early { last ≤ 2 ^ 22 }
    ensures { OnOk result (text.new.items ≡ text.old.items ++ lag_steps lane.now course.now first last) }
{
    for t in first + 1..last + 1 {
        push_step(alloc, text, lane, course, t)?;
    }
    Ok(())
}

/// Appends the path of the lags from `first` to `last`.
#[tactic(auto, unfolding(crate::specs::Lines::lag_path))]
fn push_path(
    alloc: Global,
    text: &mut Vec<u8>,
    lane: &Lane,
    course: &Course,
    first: u64,
    last: u64,
) -> Result<(), AllocError>
    requires lane { IsLane lane.now }
    requires first { course.now.joined ≤ first }
    requires last { last ≤ course.now.end }
    requires rises { first ≤ last }
    requires from { lane.now.scale.from ≤ first }
    requires to { last ≤ lane.now.scale.to }
    requires early { last ≤ 2 ^ 22 }
    ensures { OnOk result (text.new.items ≡ text.old.items ++ lag_path lane.now course.now first last) }
{
    push_start(alloc, text, lane, course, first)?;
    push_steps(alloc, text, lane, course, first, last)?;
    push_element(text, "\"/>\n")
}

/// Appends the line of no lag, and the lag.
#[tactic(auto, unfolding(crate::specs::Lines::lag_text))]
pub(crate) fn push_lag(
    alloc: Global,
    text: &mut Vec<u8>,
    lane: &Lane,
    course: &Course,
) -> Result<(), AllocError>
    requires lane { IsLane lane.now }
    requires joined { lane.now.joined ≡ course.now.joined }
    requires end { lane.now.end ≡ course.now.end }
    ensures { OnOk result (text.new.items ≡ text.old.items ++ lag_text lane.now course.now) }
{
    let first = lane.first_shown();
    let last = lane.last_shown();
    if first >= last {
        return Ok(());
    }
    let scale = lane.scale;
    push_stretch(
        alloc,
        text,
        "z",
        scale.x(first),
        lane.top + 50,
        scale.x(last),
    )?;
    push_path(alloc, text, lane, course, first, last)
}
