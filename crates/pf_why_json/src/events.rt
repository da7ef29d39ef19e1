ghost use Rattle.std.specs.Prelude.{◌≡◌, ◌++◌, map, IfOk, OnOk};
ghost use Rattle.std.specs.Option.{option_map};
ghost use Rattle.pf_admit.specs.Refusals.{denial_code, denial_name};
ghost use Rattle.pf_run.specs.Computed.{run_of};
ghost use Rattle.pf_why_json.specs.Events.{event_front, event_json, event_middle, event_object, events_json, kind_of, why_denied};

use crate::members::{push_or_null, push_quoted_or_null};
use crate::numbers::EventNumbers;
use pf_notes::reasons::Reasons;
use pf_notes::words::push_word;
use pf_run::denied::Denied;
use pf_scenario::event::{Event, Numbered};
use pf_vocabulary::names::names::Names;
use pf_why_text::events::{denial_among, push_sentence};
use std::alloc::{AllocError, Global};

/// The word of its kind.
fn kind_of(event: Event) -> &'static [u8]
    ensures { result.now ≡ kind_of event }
{
    match event {
        Event::Join { .. } => b"join",
        Event::Leave { .. } => b"leave",
        Event::Delay { .. } => b"delay",
        Event::Limit { .. } => b"limit",
    }
}

/// Adds the keys of an event up to `event`.
#[tactic(auto, unfolding(crate::specs::Events::event_front))]
fn push_front(
    text: &mut Vec<u8>,
    id: u64,
    code: Option<u64>,
    numbers: EventNumbers,
) -> Result<(), AllocError>
    ensures { OnOk result (text.new.items ≡ text.old.items ++ event_front id code numbers) }
{
    push_or_null(text, b"{\"by\":", numbers.by)?;
    push_or_null(text, b",\"code\":", code)?;
    push_or_null(text, b",\"cost\":", numbers.cost)?;
    push_or_null(text, b",\"count\":", numbers.count)?;
    push_or_null(text, b",\"early\":", numbers.early)?;
    push_word(text, b",\"event\":", id)
}

/// After them those up to `task`.
#[tactic(auto, unfolding(crate::specs::Events::event_middle))]
fn push_middle(
    text: &mut Vec<u8>,
    event: Event,
    reason: Option<&[u8]>,
    numbers: EventNumbers,
) -> Result<(), AllocError>
    ensures { OnOk result (text.new.items ≡ text.old.items ++ event_middle event (option_map (λ r. r.now) reason.entry) numbers) }
{
    text.extend_from_slice(b",\"kind\":\"")?;
    text.extend_from_slice(kind_of(event))?;
    text.extend_from_slice(b"\"")?;
    push_or_null(text, b",\"period\":", numbers.period)?;
    push_quoted_or_null(text, b",\"reason\":", reason)?;
    push_word(text, b",\"slot\":", event.slot())?;
    push_or_null(text, b",\"task\":", numbers.task)
}

/// Why an event was denied.
fn why_denied(
    alloc: Global,
    names: &Names,
    reasons: &Reasons<'_>,
    denied: Denied,
) -> Result<Vec<u8>, AllocError>
    ensures { IfOk result (λ text. text.items ≡ why_denied names.now reasons.now.state.plan (run_of reasons.now.state.plan reasons.now.state.now) denied) }
{
    let mut text = Vec::new(alloc);
    if let Some(grounds) = reasons.grounds(alloc, denied)? {
        push_sentence(&mut text, names, &grounds)?;
    }
    Ok(text)
}

/// Adds an event, with this denial where it was denied.
fn push_event(
    alloc: Global,
    text: &mut Vec<u8>,
    names: &Names,
    reasons: &Reasons<'_>,
    denied: Option<Denied>,
    numbered: Numbered,
) -> Result<(), AllocError>
    ensures { OnOk result (text.new.items ≡ text.old.items
        ++ event_object names.now reasons.now.state.plan (run_of reasons.now.state.plan reasons.now.state.now) denied numbered) }
{
    let numbers = EventNumbers::of(numbered.event);
    match denied {
        Some(denied) => {
            let sentence = why_denied(alloc, names, reasons, denied)?;
            let denial = denied.denial;
            push_front(text, numbered.id, Some(denial.code()), numbers)?;
            let reason = denial.name().as_bytes();
            push_middle(text, numbered.event, Some(reason), numbers)?;
            push_quoted_or_null(text, b",\"text\":", Some(&sentence))?;
        }
        None => {
            push_front(text, numbered.id, None, numbers)?;
            push_middle(text, numbered.event, None, numbers)?;
            push_quoted_or_null(text, b",\"text\":", None)?;
        }
    }
    text.extend_from_slice(b"}")
}

/// An event, by the denials.
fn event_json(
    alloc: Global,
    names: &Names,
    reasons: &Reasons<'_>,
    denials: &[Denied],
    numbered: Numbered,
) -> Result<Vec<u8>, AllocError>
    ensures { IfOk result (λ text. text.items
        ≡ event_json names.now reasons.now.state.plan (run_of reasons.now.state.plan reasons.now.state.now) denials.now numbered) }
{
    let denied = denial_among(denials, numbered.id);
    let mut text = Vec::new(alloc);
    push_event(alloc, &mut text, names, reasons, denied, numbered)?;
    Ok(text)
}

/// Each of these events.
pub(crate) fn events_json(
    alloc: Global,
    names: &Names,
    reasons: &Reasons<'_>,
    denials: &[Denied],
    events: &[Numbered],
) -> Result<Vec<Vec<u8>>, AllocError>
    ensures { IfOk result (λ texts. map (λ v. v.items) texts.items
        ≡ events_json names.now reasons.now.state.plan (run_of reasons.now.state.plan reasons.now.state.now) denials.now events.now) }
{
    let mut texts = Vec::new(alloc);
    for numbered in events {
        texts.push(event_json(alloc, names, reasons, denials, *numbered)?)?;
    }
    Ok(texts)
}
