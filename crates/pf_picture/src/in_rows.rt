ghost use Rattle.std.specs.Prelude.{◌≡◌, ◌≤◌, ◌^◌, length, IfOk};
ghost use Rattle.std.specs.Option.{option_map_or};
ghost use Rattle.pf_picture.specs.Rows.{block_height, height_of, is_in_row, row_count, rows_of};

use crate::drawing::Drawing;
use crate::scale::Scale;
use pf_courses::course::Course;
use pf_courses::window::Window;
use pf_vocabulary::look::style::Style;
use std::alloc::{AllocError, Global};

/// Whether a window of a task with this end has a slot in the block, or its subtask ran in it.
fn is_in_row(scale: Scale, end: u64, window: Window) -> bool
    ensures { result ≡ is_in_row scale end window }
{
    if window.release.max(scale.from()) < window.deadline.min(end).min(scale.to()) {
        return true;
    }
    match window.ran {
        Some(quantum) => scale.from() <= quantum.slot && quantum.slot < scale.to(),
        None => false,
    }
}

/// The windows of a course that have a row in the block.
///
/// # Errors
///
/// Where memory is refused.
pub(crate) fn rows_of(
    alloc: Global,
    scale: Scale,
    course: &Course,
) -> Result<Vec<Window>, AllocError>
    ensures { IfOk result (λ rows. rows.items ≡ rows_of scale course.now) }
{
    let mut rows = Vec::new(alloc);
    for window in course.windows() {
        if is_in_row(scale, course.end(), *window) {
            rows.push(*window)?;
        }
    }
    Ok(rows)
}

/// How many windows of a course have a row in the block.
fn row_count(scale: Scale, course: &Course) -> u64
    ensures value { result ≡ row_count scale course.now }
{
    let mut count: u64 = 0;
    for window in course.windows() {
        if is_in_row(scale, course.end(), *window) {
            count += 1;
        }
    }
    count
}

/// How many rows a task has in the block: none where it was never admitted.
fn drawing_rows(scale: Scale, drawing: &Drawing) -> u64
    ensures { result ≡ option_map_or (row_count scale) drawing.now.listing.track 0 }
{
    match drawing.listed().course() {
        Some(course) => row_count(scale, course),
        None => 0,
    }
}

/// How high the part of a task is in the block.
pub(crate) fn height_of(scale: Scale, drawing: &Drawing) -> u128
    ensures value { result ≡ height_of scale drawing.now }
    ensures short { result ≤ 2 ^ 70 }
{
    match scale.style() {
        Style::Strips => 72,
        Style::Stairs => 28 + 14 * u128::from(drawing_rows(scale, drawing)),
    }
}

/// How high the block is.
pub(crate) fn block_height(scale: Scale, drawings: &[Drawing]) -> u128
    requires { length drawings.now ≤ 4095 }
    ensures value { result ≡ block_height scale drawings.now }
    ensures short { result ≤ 2 ^ 83 }
{
    let mut height = 48 + 20 * u128::from(scale.processors());
    for drawing in drawings {
        height += height_of(scale, drawing);
    }
    height
}
