ghost use Rattle.std.specs.Prelude.{◌≡◌, ◌≤◌, ◌-◌, ◌++◌, OnOk};
ghost use Rattle.pf_desk.specs.Views.{lent_reply};
ghost use Rattle.pf_report.specs.Replies.{HasFewPlaces};
ghost use Rattle.pf_answers.specs.Steps.{horizon_refusal, json_end, step_json, step_text, steps_end, steps_front};

use crate::items::{push_comma, push_row};
use crate::manner::Manner;
use crate::refused::{push_object, push_sentence};
use pf_desk::reply::Fault;
use pf_desk::reply_view::ReplyView;
use pf_notes::refusal::push_horizon;
use pf_notes::words::push_word;
use pf_report::reply::push_reply;
use std::alloc::{AllocError, Global};

/// Steps of one record: the slot that the first of them takes, the horizon, how many there are, and how many of them are refused there.
#[derive(Clone, Copy)]
pub struct StepsAsked {
    /// The slot.
    pub first: u64,
    /// The horizon, in slots.
    pub horizon: u64,
    /// How many steps are refused.
    pub refused: u64,
    /// How many there are.
    pub count: u64,
}

/// Appends that steps are refused, where some are.
fn push_horizon_refusal(
    alloc: Global,
    text: &mut Vec<u8>,
    steps: StepsAsked,
) -> Result<(), AllocError>
    ensures { OnOk result (text.new.items ≡ text.old.items ++ horizon_refusal steps.horizon steps.refused steps.count) }
{
    if steps.refused == 0 {
        return Ok(());
    }
    let mut why = Vec::new(alloc);
    push_horizon(&mut why, steps.horizon, steps.refused, steps.count)?;
    text.extend_from_slice(b"\"refused\":")?;
    push_object(text, Fault::AtHorizon, &why)
}

/// Appends what stands before the slots of steps.
///
/// # Errors
///
/// Where memory is refused: the text is given up.
pub fn push_steps_front(
    alloc: Global,
    text: &mut Vec<u8>,
    json: bool,
    steps: StepsAsked,
) -> Result<(), AllocError>
    ensures { OnOk result (text.new.items ≡ text.old.items ++ steps_front json steps.horizon steps.refused steps.count) }
{
    if !json {
        return Ok(());
    }
    text.extend_from_slice(b"{")?;
    push_horizon_refusal(alloc, text, steps)?;
    if steps.refused == steps.count {
        return Ok(());
    }
    push_comma(text, steps.refused)?;
    text.extend_from_slice(b"\"rows\":[")
}

/// Appends what stands after the slots of steps.
///
/// # Errors
///
/// Where memory is refused: the text is given up.
pub fn push_steps_end(
    alloc: Global,
    text: &mut Vec<u8>,
    manner: Manner,
    steps: StepsAsked,
) -> Result<(), AllocError>
    ensures { OnOk result (text.new.items ≡ text.old.items ++ steps_end manner steps.first steps.horizon steps.refused steps.count) }
{
    if manner.json {
        return push_json_end(text, steps);
    }
    if steps.refused == 0 || manner.quiet {
        return Ok(());
    }
    let mut why = Vec::new(alloc);
    push_horizon(&mut why, steps.horizon, steps.refused, steps.count)?;
    push_sentence(text, &why)
}

/// Appends the end of the object.
fn push_json_end(text: &mut Vec<u8>, steps: StepsAsked) -> Result<(), AllocError>
    ensures { OnOk result (text.new.items ≡ text.old.items ++ json_end steps.first steps.refused steps.count) }
{
    if steps.refused != steps.count {
        push_word(text, b"],\"slot\":", steps.first)?;
    }
    text.extend_from_slice(b"}\n")
}

/// Appends the row of a slot among those of the slots taken.
fn push_item(text: &mut Vec<u8>, first: u64, reply: ReplyView<'_>) -> Result<(), AllocError>
    requires { HasFewPlaces (lent_reply reply) }
    ensures { OnOk result (text.new.items ≡ text.old.items ++ step_json first (lent_reply reply.entry)) }
{
    match reply {
        ReplyView::Stepped { slot, row } => {
            push_comma(text, slot.saturating_sub(first))?;
            push_row(text, row)
        }
        ReplyView::Edited { .. } | ReplyView::Refused(_) => Ok(()),
    }
}

/// Appends what a step adds that was answered so: its line, or the row of its slot. The first of the steps took the slot `first`.
/// A row has at most 64 places.
///
/// # Errors
///
/// Where memory is refused: the text is given up.
pub fn push_step(
    text: &mut Vec<u8>,
    json: bool,
    first: u64,
    reply: ReplyView<'_>,
) -> Result<(), AllocError>
    requires { HasFewPlaces (lent_reply reply) }
    ensures { OnOk result (text.new.items ≡ text.old.items ++ step_text json first (lent_reply reply.entry)) }
{
    if json {
        push_item(text, first, reply)
    } else {
        push_reply(text, reply)
    }
}
