ghost use Rattle.std.specs.Prelude.{◌≡◌, ◌++◌, ◌+◌, ◌-◌, ◌≤◌, ◌^◌, None, OnOk};
ghost use Rattle.pf_picture.specs.Lane.{IsLane, first_row};
ghost use Rattle.pf_picture.specs.Stairs.{row_label, row_text, row_texts, shared_if, shared_text, shared_texts};

use crate::brackets::{eligible_at, push_window};
use crate::lane::Lane;
use crate::shapes::{push_field, push_words};
use pf_courses::window::Window;
use std::alloc::{AllocError, Global};

/// How far below a row the next one lies.
const ROW: u128 = 14;

/// Appends the field of the slots that two windows share, of which the first has its row at the level z.
#[tactic(auto, unfolding(crate::specs::Stairs::shared_text))]
fn push_shared(
    alloc: Global,
    text: &mut Vec<u8>,
    lane: &Lane,
    z: u128,
    window: Window,
    next: Window,
) -> Result<(), AllocError>
    ensures { OnOk result (text.new.items ≡ text.old.items ++ shared_text lane.now z window next) }
{
    let scale = lane.scale;
    let first = next.release.max(scale.from());
    let last = window.deadline.min(lane.last_shown());
    if first >= last {
        return Ok(());
    }
    let width = scale.cell() * (last - first);
    push_field(alloc, text, "b", scale.x(first), z, width, 26)
}

/// Appends that of a window and the one before it, where there is one.
#[tactic(auto, unfolding(crate::specs::Stairs::shared_if))]
fn push_shared_if(
    alloc: Global,
    text: &mut Vec<u8>,
    lane: &Lane,
    z: u128,
    before: Option<Window>,
    window: Window,
) -> Result<(), AllocError>
    ensures { OnOk result (text.new.items ≡ text.old.items ++ shared_if lane.now z before window) }
{
    match before {
        Some(before) => push_shared(alloc, text, lane, z, before, window),
        None => Ok(()),
    }
}

/// Appends the fields of the slots that each two neighbours of these rows share.
pub(crate) fn push_all_shared(
    alloc: Global,
    text: &mut Vec<u8>,
    lane: &Lane,
    rows: &[Window],
) -> Result<(), AllocError>
    requires { IsLane lane.now }
    ensures { OnOk result (text.new.items ≡ text.old.items ++ shared_texts lane.now (first_row lane.now - 14) None rows.now) }
{
    let mut z = lane.first_row() - ROW;
    let mut before = None;
    for window in rows {
        push_shared_if(alloc, text, lane, z, before, *window)?;
        z += ROW;
        before = Some(*window);
    }
    Ok(())
}

/// Appends the number of a window, whose row is at the level z.
#[tactic(auto, unfolding(crate::specs::Stairs::row_label))]
fn push_row_label(
    alloc: Global,
    text: &mut Vec<u8>,
    lane: &Lane,
    z: u128,
    window: Window,
) -> Result<(), AllocError>
    requires { z ≤ 2 ^ 110 }
    ensures { OnOk result (text.new.items ≡ text.old.items ++ row_label lane.now z window) }
{
    let scale = lane.scale;
    let first = eligible_at(lane, window).max(scale.from());
    let sub = window.sub;
    let words = format!(in alloc; "T{sub}")?;
    push_words(alloc, text, "m", scale.x(first) - 3, z + 10, &words)
}

/// Appends the row of a window of a task with this label, at the level z.
fn push_row(
    alloc: Global,
    text: &mut Vec<u8>,
    lane: &Lane,
    label: &str,
    z: u128,
    window: Window,
) -> Result<(), AllocError>
    requires { z ≤ 2 ^ 110 }
    ensures { OnOk result (text.new.items ≡ text.old.items ++ row_text lane.now label.now z window) }
{
    push_row_label(alloc, text, lane, z, window)?;
    push_window(alloc, text, lane, label, z, window)
}

/// Appends these rows of a task with this label, one below the other.
pub(crate) fn push_rows(
    alloc: Global,
    text: &mut Vec<u8>,
    lane: &Lane,
    label: &str,
    rows: &[Window],
) -> Result<(), AllocError>
    requires { IsLane lane.now }
    ensures { OnOk result (text.new.items ≡ text.old.items ++ row_texts lane.now label.now (first_row lane.now) rows.now) }
{
    let mut z = lane.first_row();
    for window in rows {
        push_row(alloc, text, lane, label, z, *window)?;
        z += ROW;
    }
    Ok(())
}
