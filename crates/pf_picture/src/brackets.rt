ghost use Rattle.std.specs.Prelude.{◌≡◌, ◌++◌, ◌≤◌, ◌^◌, OnOk};
ghost use Rattle.std.specs.List.{flat_map};
ghost use Rattle.pf_picture.specs.Brackets.{bracket_class, bracket_text, early_text, eligible_at, end_at, late_text, quantum_text, ran_at, ran_text, window_at, window_text};
ghost use Rattle.pf_picture.specs.Lane.{IsLane};

use crate::boxes::{push_box, push_number_if_room};
use crate::lane::Lane;
use crate::shapes::{push_bracket, push_stretch};
use crate::turn::Turn;
use pf_courses::quantum::Quantum;
use pf_courses::window::Window;
use std::alloc::{AllocError, Global};

/// The first slot in which the subtask of a window may run.
pub(crate) fn eligible_at(lane: &Lane, window: Window) -> u64
    ensures { result ≡ eligible_at lane.now window }
{
    lane.joined.max(window.release.saturating_sub(lane.early))
}

/// Appends the slots before the release of a window in which its subtask may run, at the level z.
#[tactic(auto, unfolding(crate::specs::Brackets::early_text))]
fn push_early(
    alloc: Global,
    text: &mut Vec<u8>,
    lane: &Lane,
    z: u128,
    window: Window,
) -> Result<(), AllocError>
    requires { z ≤ 2 ^ 110 }
    ensures { OnOk result (text.new.items ≡ text.old.items ++ early_text lane.now z window) }
{
    let scale = lane.scale;
    let eligible = eligible_at(lane, window);
    if eligible < window.release && scale.from() < window.release && eligible < scale.to() {
        let x = scale.x(eligible.max(scale.from()));
        let to = scale.x(window.release.min(scale.to()));
        push_stretch(alloc, text, "e", x, z + 12, to)
    } else {
        Ok(())
    }
}

/// Where the end of a bracket at the level z begins, if it is whole or not.
fn end_at(whole: bool, z: u128) -> u128
    requires { z ≤ 2 ^ 110 }
    ensures { result ≡ end_at whole z }
{
    if whole { z } else { z + 12 }
}

/// The class of the bracket of a window.
fn bracket_class(window: Window) -> &'static str
    ensures { result.now ≡ bracket_class window }
{
    if window.late { "v" } else { "w" }
}

/// Appends the bracket over the slots of a window, at the level z.
#[tactic(auto, unfolding(crate::specs::Brackets::bracket_text))]
fn push_bracket_of(
    alloc: Global,
    text: &mut Vec<u8>,
    lane: &Lane,
    z: u128,
    window: Window,
) -> Result<(), AllocError>
    requires { z ≤ 2 ^ 110 }
    ensures { OnOk result (text.new.items ≡ text.old.items ++ bracket_text lane.now z window) }
{
    let scale = lane.scale;
    let first = window.release.max(scale.from());
    let last = window.deadline.min(lane.last_shown());
    if first >= last {
        return Ok(());
    }
    let left = scale.x(first) + 2;
    let right = scale.x(last) - 2;
    let begin = end_at(scale.from() <= window.release, z);
    let end = end_at(last == window.deadline, z);
    push_bracket(
        alloc,
        text,
        bracket_class(window),
        left,
        right,
        z + 12,
        begin,
        end,
    )
}

/// The slot in which the subtask of a window ran, or the task's end where it did not.
fn ran_at(lane: &Lane, window: Window) -> u64
    ensures { result ≡ ran_at lane.now window }
{
    match window.ran {
        Some(quantum) => quantum.slot,
        None => lane.end,
    }
}

/// Appends the slots after the deadline of a window in which its subtask waited, at the level z.
#[tactic(auto, unfolding(crate::specs::Brackets::late_text))]
fn push_late(
    alloc: Global,
    text: &mut Vec<u8>,
    lane: &Lane,
    z: u128,
    window: Window,
) -> Result<(), AllocError>
    requires { z ≤ 2 ^ 110 }
    ensures { OnOk result (text.new.items ≡ text.old.items ++ late_text lane.now z window) }
{
    let scale = lane.scale;
    let first = window.deadline.max(scale.from());
    let last = ran_at(lane, window).min(scale.to());
    if window.late && first < last {
        push_stretch(alloc, text, "o", scale.x(first), z + 5, scale.x(last))
    } else {
        Ok(())
    }
}

/// Appends the quantum of the subtask of a window, at the level z.
#[tactic(auto, unfolding(crate::specs::Brackets::quantum_text))]
fn push_quantum(
    alloc: Global,
    text: &mut Vec<u8>,
    lane: &Lane,
    label: &str,
    z: u128,
    window: Window,
    quantum: Quantum,
) -> Result<(), AllocError>
    requires { z ≤ 2 ^ 110 }
    ensures { OnOk result (text.new.items ≡ text.old.items ++ quantum_text lane.now label.now z window quantum) }
{
    let scale = lane.scale;
    if quantum.slot < scale.from() || scale.to() <= quantum.slot {
        return Ok(());
    }
    let turn = Turn {
        place: Some(lane.place),
        sub: window.sub,
        window,
        quantum,
    };
    let x = scale.x(quantum.slot);
    let inset = scale.inset();
    let width = scale.cell() - 2 * inset;
    let processor = u64::from(quantum.processor);
    let middle = x + u128::from(scale.cell() / 2);
    push_box(
        alloc,
        text,
        label,
        turn,
        x + u128::from(inset),
        z,
        width,
        10,
    )?;
    push_number_if_room(alloc, text, turn, processor, width, middle, z + 9)
}

/// Appends the quantum of the subtask of a window, if it ran, at the level z.
#[tactic(auto, unfolding(crate::specs::Brackets::ran_text))]
fn push_ran(
    alloc: Global,
    text: &mut Vec<u8>,
    lane: &Lane,
    label: &str,
    z: u128,
    window: Window,
) -> Result<(), AllocError>
    requires { z ≤ 2 ^ 110 }
    ensures { OnOk result (text.new.items ≡ text.old.items ++ ran_text lane.now label.now z window) }
{
    match window.ran {
        Some(quantum) => push_quantum(alloc, text, lane, label, z, window, quantum),
        None => Ok(()),
    }
}

/// Appends what is drawn of a window of a task with this label, at the level z.
#[tactic(auto, unfolding(crate::specs::Brackets::window_at))]
pub(crate) fn push_window(
    alloc: Global,
    text: &mut Vec<u8>,
    lane: &Lane,
    label: &str,
    z: u128,
    window: Window,
) -> Result<(), AllocError>
    requires { z ≤ 2 ^ 110 }
    ensures { OnOk result (text.new.items ≡ text.old.items ++ window_at lane.now label.now z window) }
{
    push_early(alloc, text, lane, z, window)?;
    push_bracket_of(alloc, text, lane, z, window)?;
    push_late(alloc, text, lane, z, window)?;
    push_ran(alloc, text, lane, label, z, window)
}

/// Appends what is drawn of these windows in a strip.
pub(crate) fn push_windows(
    alloc: Global,
    text: &mut Vec<u8>,
    lane: &Lane,
    label: &str,
    windows: &[Window],
) -> Result<(), AllocError>
    requires { IsLane lane.now }
    ensures { OnOk result (text.new.items ≡ text.old.items ++ flat_map (window_text lane.now label.now) windows.now) }
{
    for window in windows {
        push_window(alloc, text, lane, label, lane.level(window.sub), *window)?;
    }
    Ok(())
}
