ghost use Rattle.std.specs.Prelude.{◌≡◌, ◌++◌, IfOk, OnOk};
ghost use Rattle.pf_fit_text.specs.Elements.{asked_of, denial_of_fault, denied_end, denied_front, denied_json, free_of, from_of, missed_end, missed_front, missed_json, reason_json, refused_end, refused_front, refused_json, released_of, weight_of_edit, weight_of_fault};

use crate::element::push_element;
use crate::keys::{push_key, push_key_or_null};
use pf_desk::reply::Fault;
use pf_notes::grounds::Grounds;
use pf_run::denied::Denied;
use pf_run_notes::place::Place;
use pf_run_notes::refusals::{fault_code, fault_name};
use pf_scenario::fault::EditFault;
use pf_tally::miss::Miss;
use std::alloc::{AllocError, Global};

/// The units that a denied join asks for.
fn asked_of(grounds: &Grounds) -> Option<u64>
    ensures { result ≡ asked_of grounds.now }
{
    match *grounds {
        Grounds::OverCapacity { asked, .. } => Some(asked),
        Grounds::NotInside { .. } => None,
        Grounds::TooEarly { .. } => None,
        Grounds::Released { .. } => None,
    }
}

/// What the load leaves of the cap.
fn free_of(grounds: &Grounds) -> Option<u64>
    ensures { result ≡ free_of grounds.now }
{
    match *grounds {
        Grounds::OverCapacity { free, .. } => Some(free),
        Grounds::NotInside { .. } => None,
        Grounds::TooEarly { .. } => None,
        Grounds::Released { .. } => None,
    }
}

/// The next slot in which a leave is let go.
fn from_of(grounds: &Grounds) -> Option<u64>
    ensures { result ≡ from_of grounds.now }
{
    match *grounds {
        Grounds::OverCapacity { .. } => None,
        Grounds::NotInside { .. } => None,
        Grounds::TooEarly { from, .. } => from,
        Grounds::Released { .. } => None,
    }
}

/// The release before a denied delay.
fn released_of(grounds: &Grounds) -> Option<u64>
    ensures { result ≡ released_of grounds.now }
{
    match *grounds {
        Grounds::OverCapacity { .. } => None,
        Grounds::NotInside { .. } => None,
        Grounds::TooEarly { .. } => None,
        Grounds::Released { slot, .. } => Some(slot),
    }
}

/// Appends the name of a reason.
fn push_reason(alloc: Global, text: &mut Vec<u8>, name: &str) -> Result<(), AllocError>
    ensures { OnOk result (text.new.items ≡ text.old.items ++ reason_json name.now) }
{
    push_element(text, &format!(in alloc; ",\"reason\":\"{name}\"")?)
}

/// The keys of a denial up to `from`.
#[tactic(auto, unfolding(crate::specs::Elements::denied_front))]
fn denied_front(
    alloc: Global,
    denied: Denied,
    asked: Option<u64>,
    free: Option<u64>,
    from: Option<u64>,
) -> Result<Vec<u8>, AllocError>
    ensures { IfOk result (λ text. text.items ≡ denied_front denied asked free from) }
{
    let code = denied.denial.code();
    let mut text = Vec::new(alloc);
    push_key_or_null(alloc, &mut text, "{\"asked\":", asked)?;
    push_key(alloc, &mut text, ",\"code\":", u128::from(code))?;
    push_key(alloc, &mut text, ",\"event\":", u128::from(denied.id))?;
    push_key_or_null(alloc, &mut text, ",\"free\":", free)?;
    push_key_or_null(alloc, &mut text, ",\"from\":", from)?;
    Ok(text)
}

/// The others.
#[tactic(auto, unfolding(crate::specs::Elements::denied_end))]
fn denied_end(
    alloc: Global,
    place: Place,
    denied: Denied,
    released: Option<u64>,
    task: u64,
) -> Result<Vec<u8>, AllocError>
    ensures { IfOk result (λ text. text.items ≡ denied_end place denied released task) }
{
    let mut text = Vec::new(alloc);
    push_key(alloc, &mut text, ",\"line\":", u128::from(place.line))?;
    push_reason(alloc, &mut text, denied.denial.name())?;
    push_key(alloc, &mut text, ",\"record\":", u128::from(place.record))?;
    push_key_or_null(alloc, &mut text, ",\"released\":", released)?;
    push_key(alloc, &mut text, ",\"slot\":", u128::from(denied.slot))?;
    push_key(alloc, &mut text, ",\"task\":", u128::from(task))?;
    push_element(&mut text, "}")?;
    Ok(text)
}

/// A denied event of this task, which a record at this place made as it stands.
///
/// # Errors
///
/// Where memory is refused.
pub fn denied_json(
    alloc: Global,
    place: Place,
    denied: Denied,
    grounds: Grounds,
    task: u64,
) -> Result<Vec<u8>, AllocError>
    ensures { IfOk result (λ text. text.items ≡ denied_json place denied grounds task) }
{
    let asked = asked_of(&grounds);
    let free = free_of(&grounds);
    let from = from_of(&grounds);
    let released = released_of(&grounds);
    let end = denied_end(alloc, place, denied, released, task)?;
    let mut text = denied_front(alloc, denied, asked, free, from)?;
    text.extend_from_slice(&end)?;
    Ok(text)
}

/// The keys of a missed window up to `ran`.
#[tactic(auto, unfolding(crate::specs::Elements::missed_front))]
fn missed_front(alloc: Global, place: Place, miss: Miss, event: u64) -> Result<Vec<u8>, AllocError>
    ensures { IfOk result (λ text. text.items ≡ missed_front place miss event) }
{
    let mut text = Vec::new(alloc);
    push_key(
        alloc,
        &mut text,
        "{\"deadline\":",
        u128::from(miss.deadline),
    )?;
    push_key(alloc, &mut text, ",\"event\":", u128::from(event))?;
    push_key(alloc, &mut text, ",\"line\":", u128::from(place.line))?;
    push_key_or_null(alloc, &mut text, ",\"ran\":", miss.ran)?;
    Ok(text)
}

/// The others.
#[tactic(auto, unfolding(crate::specs::Elements::missed_end))]
fn missed_end(alloc: Global, place: Place, miss: Miss, windows: u64) -> Result<Vec<u8>, AllocError>
    ensures { IfOk result (λ text. text.items ≡ missed_end place miss windows) }
{
    let mut text = Vec::new(alloc);
    push_key(alloc, &mut text, ",\"record\":", u128::from(place.record))?;
    push_key(alloc, &mut text, ",\"sub\":", u128::from(miss.sub))?;
    push_key(alloc, &mut text, ",\"task\":", u128::from(miss.task))?;
    push_key(alloc, &mut text, ",\"windows\":", u128::from(windows))?;
    push_element(&mut text, "}")?;
    Ok(text)
}

/// The first window that a task missed, and how many it missed; its join is this event, which a record at this place made.
///
/// # Errors
///
/// Where memory is refused.
pub fn missed_json(
    alloc: Global,
    place: Place,
    event: u64,
    miss: Miss,
    windows: u64,
) -> Result<Vec<u8>, AllocError>
    ensures { IfOk result (λ text. text.items ≡ missed_json place event miss windows) }
{
    let end = missed_end(alloc, place, miss, windows)?;
    let mut text = missed_front(alloc, place, miss, event)?;
    text.extend_from_slice(&end)?;
    Ok(text)
}

/// The number of the denial that a strict change would have brought.
fn denial_of_fault(fault: Fault) -> Option<u64>
    ensures { result ≡ denial_of_fault fault }
{
    match fault {
        Fault::WouldDeny { denial, .. } => Some(denial.code()),
        Fault::BadEdit(_) => None,
        Fault::AtHorizon => None,
    }
}

/// The number of what is wrong with a weight.
fn weight_of_edit(fault: EditFault) -> Option<u64>
    ensures { result ≡ weight_of_edit fault }
{
    match fault {
        EditFault::BadWeight(weight) => Some(weight.code()),
        _ => None,
    }
}

/// The same of a refused command.
fn weight_of_fault(fault: Fault) -> Option<u64>
    ensures { result ≡ weight_of_fault fault }
{
    match fault {
        Fault::BadEdit(fault) => weight_of_edit(fault),
        Fault::AtHorizon => None,
        Fault::WouldDeny { .. } => None,
    }
}

/// The keys of a refused record up to `line`.
#[tactic(auto, unfolding(crate::specs::Elements::refused_front))]
fn refused_front(
    alloc: Global,
    place: Place,
    code: u64,
    denial: Option<u64>,
    event: Option<u64>,
) -> Result<Vec<u8>, AllocError>
    ensures { IfOk result (λ text. text.items ≡ refused_front place code denial event) }
{
    let mut text = Vec::new(alloc);
    push_key(alloc, &mut text, "{\"code\":", u128::from(code))?;
    push_key_or_null(alloc, &mut text, ",\"denial\":", denial)?;
    push_key_or_null(alloc, &mut text, ",\"event\":", event)?;
    push_key(alloc, &mut text, ",\"line\":", u128::from(place.line))?;
    Ok(text)
}

/// The others.
#[tactic(auto, unfolding(crate::specs::Elements::refused_end))]
fn refused_end(
    alloc: Global,
    place: Place,
    name: &str,
    steps: Option<u64>,
    weight: Option<u64>,
) -> Result<Vec<u8>, AllocError>
    ensures { IfOk result (λ text. text.items ≡ refused_end place name.now steps weight) }
{
    let mut text = Vec::new(alloc);
    push_reason(alloc, &mut text, name)?;
    push_key(alloc, &mut text, ",\"record\":", u128::from(place.record))?;
    push_key_or_null(alloc, &mut text, ",\"steps\":", steps)?;
    push_key_or_null(alloc, &mut text, ",\"weight\":", weight)?;
    push_element(&mut text, "}")?;
    Ok(text)
}

/// A record at this place whose command was refused: the event that the fault names, where it names one, and how many steps
/// were refused, where it is one of steps.
///
/// # Errors
///
/// Where memory is refused.
pub fn refused_json(
    alloc: Global,
    place: Place,
    fault: Fault,
    event: Option<u64>,
    steps: Option<u64>,
) -> Result<Vec<u8>, AllocError>
    ensures { IfOk result (λ text. text.items ≡ refused_json place fault event steps) }
{
    let code = fault_code(fault);
    let denial = denial_of_fault(fault);
    let weight = weight_of_fault(fault);
    let end = refused_end(alloc, place, fault_name(fault), steps, weight)?;
    let mut text = refused_front(alloc, place, code, denial, event)?;
    text.extend_from_slice(&end)?;
    Ok(text)
}
