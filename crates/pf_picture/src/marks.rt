ghost use Rattle.std.specs.Prelude.{◌≡◌, ◌++◌, ◌≤◌, ◌^◌, IfOk, OnOk};
ghost use Rattle.std.specs.String.{string_bytes};
ghost use Rattle.std.specs.List.{flat_map};
ghost use Rattle.pf_picture.specs.Lane.{IsLane};
ghost use Rattle.pf_picture.specs.Lines.{denial_text, denial_words, denied_at, denied_text, join_text, leave_text, stop_text};

use crate::lane::{Lane, events_level};
use crate::scale::Scale;
use crate::shapes::{push_field, push_mark, push_words};
use pf_courses::pause::Pause;
use pf_run::denied::Denied;
use std::alloc::{AllocError, Global};

/// Appends a stop of the task's clock, as far as it is shown.
#[tactic(auto, unfolding(crate::specs::Lines::stop_text))]
fn push_stop(alloc: Global, text: &mut Vec<u8>, lane: &Lane, stop: Pause) -> Result<(), AllocError>
    requires { IsLane lane.now }
    ensures { OnOk result (text.new.items ≡ text.old.items ++ stop_text lane.now stop) }
{
    let scale = lane.scale;
    let first = stop.start.max(lane.first_shown());
    let last = stop.end.min(lane.last_shown());
    if first >= last {
        return Ok(());
    }
    push_field(
        alloc,
        text,
        "s",
        scale.x(first),
        lane.top,
        scale.cell() * (last - first),
        lane.stop_height(),
    )
}

/// Appends these stops of the task's clock.
pub(crate) fn push_stops(
    alloc: Global,
    text: &mut Vec<u8>,
    lane: &Lane,
    stops: &[Pause],
) -> Result<(), AllocError>
    requires { IsLane lane.now }
    ensures { OnOk result (text.new.items ≡ text.old.items ++ flat_map (stop_text lane.now) stops.now) }
{
    for stop in stops {
        push_stop(alloc, text, lane, *stop)?;
    }
    Ok(())
}

/// Appends where the task joins.
#[tactic(auto, unfolding(crate::specs::Lines::join_text))]
pub(crate) fn push_join(alloc: Global, text: &mut Vec<u8>, lane: &Lane) -> Result<(), AllocError>
    requires { IsLane lane.now }
    ensures { OnOk result (text.new.items ≡ text.old.items ++ join_text lane.now) }
{
    let scale = lane.scale;
    if scale.from() <= lane.joined && lane.joined < scale.to() {
        push_mark(
            alloc,
            text,
            "j",
            scale.x(lane.joined),
            events_level(scale.style(), lane.top),
            "l6 3l-6 3z",
        )
    } else {
        Ok(())
    }
}

/// Appends where the task leaves, if it left.
#[tactic(auto, unfolding(crate::specs::Lines::leave_text))]
pub(crate) fn push_leave(
    alloc: Global,
    text: &mut Vec<u8>,
    lane: &Lane,
    left: bool,
) -> Result<(), AllocError>
    requires { IsLane lane.now }
    ensures { OnOk result (text.new.items ≡ text.old.items ++ leave_text lane.now left) }
{
    let scale = lane.scale;
    if left && scale.from() < lane.end && lane.end <= scale.to() {
        push_mark(
            alloc,
            text,
            "j",
            scale.x(lane.end),
            events_level(scale.style(), lane.top),
            "l-6 3l6 3z",
        )
    } else {
        Ok(())
    }
}

/// The number and the name of a denied event.
#[tactic(auto, unfolding(crate::specs::Lines::denial_words))]
fn denial_words(alloc: Global, denied: Denied) -> Result<String, AllocError>
    ensures { IfOk result (λ words. string_bytes words ≡ denial_words denied) }
{
    let id = denied.id;
    let name = denied.denial.name();
    format!(in alloc; "event {id} {name}")
}

/// Appends the words of a denied event in the slot at x: those of the second half of a block stand before it.
fn push_denial(
    alloc: Global,
    text: &mut Vec<u8>,
    is_second: bool,
    x: u128,
    y: u128,
    words: &str,
) -> Result<(), AllocError>
    requires left { 6 ≤ x }
    requires right { x ≤ 2 ^ 101 }
    ensures { OnOk result (text.new.items ≡ text.old.items ++ denial_text is_second x y words.now) }
{
    if is_second {
        push_words(alloc, text, "r m", x - 6, y, words)
    } else {
        push_words(alloc, text, "r", x + 6, y, words)
    }
}

/// Appends a denied event in the slot at x, where those of its task are drawn at the level v.
#[tactic(auto, unfolding(crate::specs::Lines::denied_at))]
fn push_denied_at(
    alloc: Global,
    text: &mut Vec<u8>,
    is_second: bool,
    v: u128,
    x: u128,
    denied: Denied,
) -> Result<(), AllocError>
    requires level { v ≤ 2 ^ 101 }
    requires left { 6 ≤ x }
    requires right { x ≤ 2 ^ 101 }
    ensures { OnOk result (text.new.items ≡ text.old.items ++ denied_at is_second v x denied) }
{
    let words = denial_words(alloc, denied)?;
    push_mark(alloc, text, "x", x - 3, v, "l6 6m0-6l-6 6")?;
    push_denial(alloc, text, is_second, x, v + 7, &words)
}

/// Appends a denied event, if its slot is in the block, where those of its task are drawn at the level v.
#[tactic(auto, unfolding(crate::specs::Lines::denied_text))]
fn push_denied(
    alloc: Global,
    text: &mut Vec<u8>,
    scale: Scale,
    v: u128,
    denied: Denied,
) -> Result<(), AllocError>
    requires { v ≤ 2 ^ 101 }
    ensures { OnOk result (text.new.items ≡ text.old.items ++ denied_text scale v denied) }
{
    let slot = denied.slot;
    if slot < scale.from() || scale.to() <= slot {
        return Ok(());
    }
    let is_second = scale.to() - scale.from() <= 2 * (slot - scale.from());
    push_denied_at(alloc, text, is_second, v, scale.x(slot), denied)
}

/// Appends those of these denied events whose slots are in the block, at the level v.
pub(crate) fn push_all_denied(
    alloc: Global,
    text: &mut Vec<u8>,
    scale: Scale,
    v: u128,
    denied: &[Denied],
) -> Result<(), AllocError>
    requires { v ≤ 2 ^ 101 }
    ensures { OnOk result (text.new.items ≡ text.old.items ++ flat_map (denied_text scale v) denied.now) }
{
    for event in denied {
        push_denied(alloc, text, scale, v, *event)?;
    }
    Ok(())
}
