ghost use Rattle.std.specs.Prelude.{◌≡◌, ◌++◌, OnOk};
ghost use Rattle.std.specs.Option.{option_and_then, option_map};
ghost use Rattle.pf_vocabulary.specs.Names.Names.{name_of};
ghost use Rattle.pf_run.specs.Computed.{run_of};
ghost use Rattle.pf_why_text.specs.Events.{denial_among, denied_text, event_text, events_text, outcome_text, sentence_text};

use pf_notes::grounds::{Grounds, push_grounds};
use pf_notes::reasons::Reasons;
use pf_notes::refusal::push_record;
use pf_run::denied::Denied;
use pf_scenario::event::Numbered;
use pf_vocabulary::names::names::Names;
use std::alloc::{AllocError, Global};

/// The name of a task, if there is a task, and it has one.
pub(crate) fn name_of<'a>(names: &'a Names, task: Option<u64>) -> Option<&'a [u8]>
    ensures { option_map (λ n. n.now) result ≡ option_and_then (name_of names.now) task }
{
    match names.of_task(task?) {
        Some(name) => Some(name.as_bytes()),
        None => None,
    }
}

/// Adds why an event was denied.
///
/// # Errors
///
/// Where memory is refused: a front of it was added.
pub fn push_sentence(text: &mut Vec<u8>, names: &Names, grounds: &Grounds) -> Result<(), AllocError>
    ensures { OnOk result (text.new.items ≡ text.old.items ++ sentence_text names.now grounds.now) }
{
    push_grounds(text, name_of(names, grounds.task()), grounds)
}

/// Adds that an event was denied, and why.
fn push_denied(
    alloc: Global,
    text: &mut Vec<u8>,
    names: &Names,
    reasons: &Reasons<'_>,
    denied: Denied,
) -> Result<(), AllocError>
    ensures { OnOk result (text.new.items ≡ text.old.items
        ++ denied_text names.now reasons.now.state.plan (run_of reasons.now.state.plan reasons.now.state.now) denied) }
{
    let grounds = reasons.grounds(alloc, denied)?;
    text.extend_from_slice(b"denied: ")?;
    match grounds {
        Some(grounds) => push_sentence(text, names, &grounds),
        None => Ok(()),
    }
}

/// Adds whether an event was taken.
fn push_outcome(
    alloc: Global,
    text: &mut Vec<u8>,
    names: &Names,
    reasons: &Reasons<'_>,
    denied: Option<Denied>,
) -> Result<(), AllocError>
    ensures { OnOk result (text.new.items ≡ text.old.items
        ++ outcome_text names.now reasons.now.state.plan (run_of reasons.now.state.plan reasons.now.state.now) denied) }
{
    match denied {
        Some(denied) => push_denied(alloc, text, names, reasons, denied),
        None => {
            text.extend_from_slice(b"taken")?;
            Ok(())
        }
    }
}

/// The denial of the event of this number, if it was denied.
pub fn denial_among(denials: &[Denied], id: u64) -> Option<Denied>
    ensures { result ≡ denial_among denials.now id }
{
    denials.iter().copied().find(|denied| denied.id == id)
}

/// Adds the line of an event.
fn push_event(
    alloc: Global,
    text: &mut Vec<u8>,
    names: &Names,
    reasons: &Reasons<'_>,
    denials: &[Denied],
    numbered: Numbered,
) -> Result<(), AllocError>
    ensures { OnOk result (text.new.items ≡ text.old.items
        ++ event_text names.now reasons.now.state.plan (run_of reasons.now.state.plan reasons.now.state.now) denials.now numbered) }
{
    let head = format!(in alloc; "event {}, ", numbered.id)?;
    let denied = denial_among(denials, numbered.id);
    text.extend_from_slice(head.as_bytes())?;
    push_record(text, numbered.event)?;
    text.extend_from_slice(b": ")?;
    push_outcome(alloc, text, names, reasons, denied)?;
    text.extend_from_slice(b"\n")?;
    Ok(())
}

/// Adds the lines of some events: whether each was taken, and if not, why.
///
/// # Errors
///
/// Where memory is refused: a front of them was added.
pub fn push_events(
    alloc: Global,
    text: &mut Vec<u8>,
    names: &Names,
    reasons: &Reasons<'_>,
    denials: &[Denied],
    events: &[Numbered],
) -> Result<(), AllocError>
    ensures { OnOk result (text.new.items ≡ text.old.items
        ++ events_text names.now reasons.now.state.plan (run_of reasons.now.state.plan reasons.now.state.now) denials.now events.now) }
{
    for numbered in events {
        push_event(alloc, text, names, reasons, denials, *numbered)?;
    }
    Ok(())
}
