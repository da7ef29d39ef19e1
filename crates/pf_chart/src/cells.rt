ghost use Rattle.std.specs.Prelude.{◌≡◌, ◌<◌};
ghost use Rattle.pf_chart.specs.Cells.{lag_cell, mark_cell, task_cell, window_cell, window_symbol};

use crate::symbols::{BLANK, lag_symbol, processor_symbol};
use pf_courses::course::Course;
use pf_courses::window::Window;

/// The symbol of a slot of a window.
fn window_symbol(window: &Window, t: u64) -> u8
    requires { t < window.now.deadline }
    ensures { result ≡ window_symbol t window.now }
{
    let is_first = window.release == t;
    let is_last = window.deadline == t + 1;
    if is_first && is_last {
        b'I'
    } else if is_first {
        b'['
    } else if is_last {
        b']'
    } else {
        b'-'
    }
}

/// The cell of slot t in the line of a task with this course.
pub fn task_cell(course: &Course, t: u64) -> u8
    ensures { result ≡ task_cell course.now t }
{
    if let Some(window) = course.running(t) {
        if let Some(processor) = window.processor_in(t) {
            return processor_symbol(processor);
        }
    }
    if course.is_inside(t) && course.is_behind(t) {
        b'!'
    } else if course.is_waiting(t) {
        b'.'
    } else {
        BLANK
    }
}

/// The cell of slot t in the line of its windows.
pub fn window_cell(course: &Course, t: u64) -> u8
    ensures { result ≡ window_cell course.now t }
{
    if t >= course.end() {
        return BLANK;
    }
    let due = course.due(t);
    let released = course.released(t);
    if released <= due {
        return BLANK;
    }
    if released - due > 1 {
        return b'X';
    }
    window_symbol(&course.windows()[due], t)
}

/// The cell of slot t in the line of its lag.
pub fn lag_cell(course: &Course, t: u64) -> u8
    ensures { result ≡ lag_cell course.now t }
{
    if !course.is_inside(t) {
        return BLANK;
    }
    let lag = course.lags()[(t - course.joined()) as usize];
    lag_symbol(course.weight().period(), lag)
}

/// The cell of slot t in the line of its marks, where no event of it is denied in that slot.
pub fn mark_cell(course: &Course, t: u64) -> u8
    ensures { result ≡ mark_cell course.now t }
{
    let runs_late = match course.running(t) {
        Some(window) => window.late,
        None => false,
    };
    if runs_late {
        b'^'
    } else if course.joined() == t {
        b'>'
    } else if course.left() && course.end() == t {
        b'<'
    } else if course.is_stopped(t) {
        b'~'
    } else {
        BLANK
    }
}
