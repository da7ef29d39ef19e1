ghost use Rattle.std.specs.Prelude.{◌≡◌, ◌++◌, ◌≤◌, IsTrue, OnOk};
ghost use Rattle.pf_picture.specs.Lane.{IsLane};
ghost use Rattle.pf_picture.specs.Lines.{group_if, group_text, groups_text, has_group_mark, last_drawn};

use crate::lane::Lane;
use crate::shapes::{push_drop, push_mark};
use pf_courses::window::Window;
use pf_vocabulary::look::style::Style;
use std::alloc::{AllocError, Global};

/// Whether the group deadline of a window is drawn, where the last one drawn is this.
fn has_group_mark(lane: &Lane, last: u64, window: Window) -> bool
    ensures value { result ≡ has_group_mark lane.now last window }
    ensures from { IsTrue result → lane.now.scale.from ≤ window.group }
    ensures to { IsTrue result → window.group ≤ lane.now.scale.to }
{
    window.bit == 1
        && window.group != 0
        && window.group != last
        && lane.first_shown() < window.group
        && window.group <= lane.last_shown()
}

/// Appends the mark of a group deadline.
#[tactic(auto, unfolding(crate::specs::Lines::group_in))]
fn push_group(alloc: Global, text: &mut Vec<u8>, lane: &Lane, due: u64) -> Result<(), AllocError>
    requires lane { IsLane lane.now }
    requires from { lane.now.scale.from ≤ due }
    requires to { due ≤ lane.now.scale.to }
    ensures { OnOk result (text.new.items ≡ text.old.items ++ group_text lane.now due) }
{
    let x = lane.scale.x(due);
    match lane.scale.style() {
        Style::Strips => push_mark(alloc, text, "d", x, lane.top + 29, "l-3 5h6z"),
        Style::Stairs => {
            push_drop(alloc, text, "l", x, lane.top + 13, lane.stairs_end())?;
            push_mark(alloc, text, "d", x, lane.top + 8, "l-3 5h6z")
        }
    }
}

/// Appends the group deadline of a window, if it is drawn, where the last one drawn is this.
#[tactic(auto, unfolding(crate::specs::Lines::group_if))]
fn push_group_if(
    alloc: Global,
    text: &mut Vec<u8>,
    lane: &Lane,
    last: u64,
    window: Window,
) -> Result<(), AllocError>
    requires { IsLane lane.now }
    ensures { OnOk result (text.new.items ≡ text.old.items ++ group_if lane.now last window) }
{
    if !has_group_mark(lane, last, window) {
        return Ok(());
    }
    push_group(alloc, text, lane, window.group)
}

/// The last group deadline that is drawn after that of a window, where it was this one before.
fn last_drawn(lane: &Lane, last: u64, window: Window) -> u64
    ensures { result ≡ last_drawn lane.now last window }
{
    if has_group_mark(lane, last, window) {
        window.group
    } else {
        last
    }
}

/// Appends the group deadlines of these windows, each once.
pub(crate) fn push_groups(
    alloc: Global,
    text: &mut Vec<u8>,
    lane: &Lane,
    windows: &[Window],
) -> Result<(), AllocError>
    requires { IsLane lane.now }
    ensures { OnOk result (text.new.items ≡ text.old.items ++ groups_text lane.now 0 windows.now) }
{
    let mut last = 0;
    for window in windows {
        push_group_if(alloc, text, lane, last, *window)?;
        last = last_drawn(lane, last, *window);
    }
    Ok(())
}
