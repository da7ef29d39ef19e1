ghost use Rattle.std.specs.Prelude.{◌≡◌, ◌+◌, ◌≤◌, ◌^◌};
ghost use Rattle.pf_picture.specs.Strips.{greatest_in, greatest_over, quanta_at, quanta_of, strips_of};
ghost use Rattle.std.specs.Option.{option_map_or};

use crate::drawing::Drawing;
use crate::lag_line::lag_at;
use pf_courses::course::Course;

/// A lag, times the period, without its sign, in quanta, rounded up.
fn quanta_of(period: u64, lag: i64) -> u64
    requires { 1 ≤ period }
    ensures { result ≡ quanta_of period lag }
{
    lag.unsigned_abs().div_ceil(period)
}

/// The quanta of the lag of a course before slot t.
fn quanta_at(course: &Course, t: u64) -> u64
    requires first { course.now.joined ≤ t }
    requires last { t ≤ course.now.end }
    ensures { result ≡ quanta_at course.now t }
{
    quanta_of(course.weight().period(), lag_at(course, t))
}

/// The quanta of the greatest lag of a course over these slots, and `least` at the least.
fn greatest_over(course: &Course, first: u64, behind: u64, least: u64) -> u64
    requires first { course.now.joined ≤ first }
    requires behind { behind ≤ course.now.end + 1 }
    ensures value { result ≡ greatest_over course.now first behind least }
    ensures least { least ≤ result }
{
    let mut most = least;
    for t in first..behind {
        most = most.max(quanta_at(course, t));
    }
    most
}

/// The quanta of the greatest lag of a course over the slots from `from` to `to`, and `least` at the least.
fn greatest_in(course: &Course, from: u64, to: u64, least: u64) -> u64
    requires { to ≤ 2 ^ 22 }
    ensures value { result ≡ greatest_in from to least course.now }
    ensures least { least ≤ result }
{
    let first = course.joined().max(from);
    let behind = course.end().min(to) + 1;
    greatest_over(course, first, behind, least)
}

/// The quanta of the greatest lag of a listed task, if it was admitted, over the slots from `from` to `to`.
fn greatest_of(drawing: &Drawing, from: u64, to: u64, least: u64) -> u64
    requires { to ≤ 2 ^ 22 }
    ensures value { result ≡ option_map_or (greatest_in from to least) drawing.now.listing.track least }
    ensures least { least ≤ result }
{
    match drawing.listed().course() {
        Some(course) => greatest_in(course, from, to, least),
        None => least,
    }
}

/// The quanta of the greatest lag of all listed tasks over the slots from `from` to `to`, at least 1.
pub(crate) fn strips(drawings: &[Drawing], from: u64, to: u64) -> u64
    requires { to ≤ 2 ^ 22 }
    ensures value { result ≡ strips_of from to drawings.now }
    ensures some { 1 ≤ result }
{
    let mut most = 1;
    for drawing in drawings {
        most = greatest_of(drawing, from, to, most);
    }
    most
}
