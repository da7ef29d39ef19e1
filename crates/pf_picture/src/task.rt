ghost use Rattle.std.specs.Prelude.{◌≡◌, ◌++◌, ◌≤◌, ◌^◌, IfOk, OnOk};
ghost use Rattle.std.specs.String.{string_bytes};
ghost use Rattle.pf_picture.specs.Lane.{IsLane};
ghost use Rattle.pf_picture.specs.Rows.{row_count, rows_of};
ghost use Rattle.pf_picture.specs.Task.{admitted_text, both_words, course_text, lag_label, lane_in, name_text, stairs_text, strip_text, task_text_of, windows_in, words_in};

use crate::brackets::push_windows;
use crate::drawing::Drawing;
use crate::groups::push_groups;
use crate::in_rows::rows_of;
use crate::lag_line::{lag_at, push_lag};
use crate::lane::{Lane, events_level};
use crate::marks::{push_all_denied, push_join, push_leave, push_stops};
use crate::scale::Scale;
use crate::shapes::{push_label, push_stretch};
use crate::stairs::{push_all_shared, push_rows};
use pf_courses::course::Course;
use pf_courses::window::Window;
use pf_vocabulary::look::style::Style;
use std::alloc::{AllocError, Global};

/// What a task is called and its weight, on one line.
#[tactic(auto, unfolding(crate::specs::Task::both_words))]
fn both_words(alloc: Global, drawing: &Drawing) -> Result<String, AllocError>
    ensures { IfOk result (λ words. string_bytes words ≡ both_words drawing.now) }
{
    let label = drawing.label();
    let weight = drawing.weight();
    format!(in alloc; "{label}, {weight}")
}

/// Appends what a task is called and its weight.
#[tactic(auto, unfolding(crate::specs::Task::words_in))]
fn push_words(
    alloc: Global,
    text: &mut Vec<u8>,
    style: Style,
    top: u128,
    drawing: &Drawing,
) -> Result<(), AllocError>
    requires { top ≤ 2 ^ 100 }
    ensures { OnOk result (text.new.items ≡ text.old.items ++ words_in style top drawing.now) }
{
    match style {
        Style::Strips => {
            push_label(alloc, text, top + 12, drawing.label())?;
            push_label(alloc, text, top + 26, drawing.weight())
        }
        Style::Stairs => {
            let words = both_words(alloc, drawing)?;
            push_label(alloc, text, top + 12, &words)
        }
    }
}

/// Appends a line over the part of a task, what it is called and its weight.
#[tactic(auto, unfolding(crate::specs::Task::name_text))]
fn push_name(
    alloc: Global,
    text: &mut Vec<u8>,
    scale: Scale,
    top: u128,
    drawing: &Drawing,
) -> Result<(), AllocError>
    requires least { 4 ≤ top }
    requires most { top ≤ 2 ^ 100 }
    ensures { OnOk result (text.new.items ≡ text.old.items ++ name_text scale top drawing.now) }
{
    push_stretch(alloc, text, "h", 0, top - 4, scale.width())?;
    push_words(alloc, text, scale.style(), top, drawing)
}

/// Appends the lag of a task after the slots of the block, if it is inside then.
#[tactic(auto, unfolding(crate::specs::Task::lag_label))]
fn push_lag_label(
    alloc: Global,
    text: &mut Vec<u8>,
    lane: &Lane,
    course: &Course,
) -> Result<(), AllocError>
    requires { IsLane lane.now }
    ensures { OnOk result (text.new.items ≡ text.old.items ++ lag_label lane.now course.now) }
{
    let to = lane.scale.to();
    if to < course.joined() || course.end() < to {
        return Ok(());
    }
    let lag = lag_at(course, to);
    let words = format!(in alloc; "lag {lag}")?;
    push_label(alloc, text, lane.top + 54, &words)
}

/// Appends the windows of a task with this label over a strip of its lag.
#[tactic(auto, unfolding(crate::specs::Task::strip_text))]
fn push_strip(
    alloc: Global,
    text: &mut Vec<u8>,
    lane: &Lane,
    label: &str,
    course: &Course,
) -> Result<(), AllocError>
    requires lane { IsLane lane.now }
    requires joined { lane.now.joined ≡ course.now.joined }
    requires end { lane.now.end ≡ course.now.end }
    ensures { OnOk result (text.new.items ≡ text.old.items ++ strip_text lane.now label.now course.now) }
{
    push_lag_label(alloc, text, lane, course)?;
    push_stops(alloc, text, lane, course.stops())?;
    push_windows(alloc, text, lane, label, course.windows())?;
    push_groups(alloc, text, lane, course.windows())?;
    push_lag(alloc, text, lane, course)
}

/// Appends the windows of a task with this label, which have these rows, one below the other.
#[tactic(auto, unfolding(crate::specs::Task::stairs_text))]
fn push_stairs(
    alloc: Global,
    text: &mut Vec<u8>,
    lane: &Lane,
    label: &str,
    course: &Course,
    rows: &[Window],
) -> Result<(), AllocError>
    requires lane { IsLane lane.now }
    requires rows { rows.now ≡ rows_of lane.now.scale course.now }
    ensures { OnOk result (text.new.items ≡ text.old.items ++ stairs_text lane.now label.now course.now) }
{
    push_stops(alloc, text, lane, course.stops())?;
    push_all_shared(alloc, text, lane, rows)?;
    push_groups(alloc, text, lane, course.windows())?;
    push_rows(alloc, text, lane, label, rows)
}

/// Appends the windows of a task with this label, which have these rows, as its style has them.
#[tactic(auto, unfolding(crate::specs::Task::windows_in))]
fn push_windows_in(
    alloc: Global,
    text: &mut Vec<u8>,
    lane: &Lane,
    label: &str,
    course: &Course,
    rows: &[Window],
) -> Result<(), AllocError>
    requires lane { IsLane lane.now }
    requires joined { lane.now.joined ≡ course.now.joined }
    requires end { lane.now.end ≡ course.now.end }
    requires rows { rows.now ≡ rows_of lane.now.scale course.now }
    ensures { OnOk result (text.new.items ≡ text.old.items ++ windows_in lane.now.scale.style lane.now label.now course.now) }
{
    match lane.scale.style() {
        Style::Strips => push_strip(alloc, text, lane, label, course),
        Style::Stairs => push_stairs(alloc, text, lane, label, course, rows),
    }
}

/// Appends what is drawn of the course of a task with this label, whose windows have these rows.
#[tactic(auto, unfolding(crate::specs::Task::course_text))]
fn push_course(
    alloc: Global,
    text: &mut Vec<u8>,
    lane: &Lane,
    label: &str,
    course: &Course,
    rows: &[Window],
) -> Result<(), AllocError>
    requires lane { IsLane lane.now }
    requires joined { lane.now.joined ≡ course.now.joined }
    requires end { lane.now.end ≡ course.now.end }
    requires rows { rows.now ≡ rows_of lane.now.scale course.now }
    ensures { OnOk result (text.new.items ≡ text.old.items ++ course_text lane.now label.now course.now) }
{
    push_windows_in(alloc, text, lane, label, course, rows)?;
    push_join(alloc, text, lane)?;
    push_leave(alloc, text, lane, course.left())
}

/// The lane of an admitted task of this place, whose part begins at `top` and whose windows have so many rows.
fn lane_in(
    scale: Scale,
    top: u128,
    place: u64,
    drawing: &Drawing,
    course: &Course,
    rows: u64,
) -> Lane
    requires rows { rows ≡ row_count scale course.now }
    requires below { 56 ≤ top }
    requires above { top ≤ 2 ^ 100 }
    ensures value { result ≡ lane_in scale top place drawing.now course.now }
    ensures lane { IsLane result }
{
    Lane {
        scale,
        top,
        rows,
        place,
        joined: course.joined(),
        end: course.end(),
        early: drawing.early(),
    }
}

/// Appends what is drawn of the course of a task, if it was admitted.
#[tactic(auto, unfolding(crate::specs::Task::admitted_text))]
fn push_admitted(
    alloc: Global,
    text: &mut Vec<u8>,
    scale: Scale,
    top: u128,
    place: u64,
    drawing: &Drawing,
) -> Result<(), AllocError>
    requires below { 56 ≤ top }
    requires above { top ≤ 2 ^ 100 }
    ensures { OnOk result (text.new.items ≡ text.old.items ++ admitted_text scale top place drawing.now) }
{
    match drawing.listed().course() {
        Some(course) => {
            let rows = rows_of(alloc, scale, course)?;
            let lane = lane_in(scale, top, place, drawing, course, rows.len() as u64);
            push_course(alloc, text, &lane, drawing.label(), course, &rows)
        }
        None => Ok(()),
    }
}

/// The part of the task of this place among those shown, from `top` on.
///
/// # Errors
///
/// Where memory is refused.
#[tactic(auto, unfolding(crate::specs::Task::task_text_of))]
pub(crate) fn task_text(
    alloc: Global,
    scale: Scale,
    top: u128,
    place: u64,
    drawing: &Drawing,
) -> Result<Vec<u8>, AllocError>
    requires below { 56 ≤ top }
    requires above { top ≤ 2 ^ 100 }
    ensures { IfOk result (λ v. v.items ≡ task_text_of scale top place drawing.now) }
{
    let mut text = Vec::new(alloc);
    push_name(alloc, &mut text, scale, top, drawing)?;
    push_admitted(alloc, &mut text, scale, top, place, drawing)?;
    let level = events_level(scale.style(), top);
    push_all_denied(alloc, &mut text, scale, level, drawing.denied())?;
    Ok(text)
}
