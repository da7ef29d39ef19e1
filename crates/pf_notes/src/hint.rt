ghost use Rattle.std.specs.Prelude.{◌≡◌, ◌++◌, [], OnOk};
ghost use Rattle.std.specs.Option.{option_map_or};
ghost use Rattle.pf_notes.specs.Hints.{change_hint, event_hint, grounds_hint, refusal_hint, weight_hint};

use crate::grounds::Grounds;
use crate::periods::push_period_hint;
use crate::refusal::{brought_by, other_of};
use crate::words::push_between;
use pf_desk::reply::Fault;
use pf_scenario::change::Change;
use pf_scenario::event::Event;
use pf_scenario::fault::EditFault;
use pf_scenario::scenario::Scenario;
use pf_weight::base::Base;
use pf_weight::fault::WeightFault;
use std::alloc::AllocError;

/// Appends which alter changes the event of this number, with these words.
fn push_change(text: &mut Vec<u8>, id: Option<u64>, words: &[u8]) -> Result<(), AllocError>
    ensures { OnOk result (text.new.items ≡ text.old.items ++ option_map_or (change_hint words.now) id []) }
{
    match id {
        Some(id) => push_between(text, b"alter,", id, words),
        None => Ok(()),
    }
}

/// Appends which periods a join may have.
fn push_weight(text: &mut Vec<u8>, base: Base, event: Event) -> Result<(), AllocError>
    ensures { OnOk result (text.new.items ≡ text.old.items ++ weight_hint base event) }
{
    match event {
        Event::Join { period, .. } => push_period_hint(text, base, period),
        _ => Ok(()),
    }
}

/// Appends what would be right in place of a change that brings this event and has this fault.
fn push_event(
    text: &mut Vec<u8>,
    scenario: &Scenario,
    change: Change,
    event: Event,
    fault: EditFault,
) -> Result<(), AllocError>
    ensures { OnOk result (text.new.items ≡ text.old.items ++ event_hint scenario.now change event fault) }
{
    match fault {
        EditFault::JoinTwice => {
            let other = other_of(scenario, change, event);
            push_change(text, other, b",join,.. changes that join")
        }
        EditFault::LeaveTwice => {
            let other = other_of(scenario, change, event);
            push_change(text, other, b",leave,.. changes that leave")
        }
        EditFault::BadWeight(WeightFault::PeriodNotInBase) => {
            push_weight(text, scenario.settings().base(), event)
        }
        _ => Ok(()),
    }
}

/// Appends what would be right in place of a change that this scenario refused; nothing where nothing can be said. For a period
/// that does not divide the base it takes some 2^16 divisions.
///
/// # Errors
///
/// Where memory is refused: the text is given up.
pub fn push_refusal_hint(
    text: &mut Vec<u8>,
    scenario: &Scenario,
    change: Change,
    fault: Fault,
) -> Result<(), AllocError>
    ensures { OnOk result (text.new.items ≡ text.old.items ++ refusal_hint scenario.now change fault) }
{
    match (fault, brought_by(change)) {
        (Fault::BadEdit(fault), Some(event)) => push_event(text, scenario, change, event, fault),
        _ => Ok(()),
    }
}

/// Appends what would be right in place of an event whose denial rests on these grounds; nothing where nothing can be said.
///
/// # Errors
///
/// Where memory is refused: the text is given up.
pub fn push_grounds_hint(text: &mut Vec<u8>, grounds: &Grounds) -> Result<(), AllocError>
    ensures { OnOk result (text.new.items ≡ text.old.items ++ grounds_hint grounds.now) }
{
    match *grounds {
        Grounds::OverCapacity { cost, .. } if cost != 0 => {
            push_between(text, b"a cost of ", cost, b" would be let in")
        }
        _ => Ok(()),
    }
}
