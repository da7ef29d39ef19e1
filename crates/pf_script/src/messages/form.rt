ghost use Rattle.std.specs.Prelude.{◌≡◌, ◌++◌, List, ℕ, OnOk};
ghost use Rattle.pf_script.specs.Messages.Forms.{after_commas, before_mark, change_form, event_form, field_name, is_heading, is_mark, join_form, labelled_form, name_in, record_form, settings_form};

use crate::fields::Fields;
use std::alloc::{AllocError, Global};

/// The form of settings, of a plan or not.
pub(crate) fn settings_form(plan: bool) -> &'static str
    ensures { result.now ≡ settings_form plan }
{
    if plan {
        "settings,M,BASE[,CAP[,EVERY]]"
    } else {
        "settings,M,BASE,CAP,EVERY"
    }
}

fn join_form(plan: bool) -> &'static str
    ensures { result.now ≡ join_form plan }
{
    if plan {
        "join,SLOT,TASK,COST,PERIOD[,EARLY]"
    } else {
        "join,SLOT,TASK,COST,PERIOD,EARLY"
    }
}

/// The form of the event that the first of these fields names, or else `other`.
#[tactic(auto, unfolding(crate::specs::Messages::Forms::event_form))]
fn event_form(plan: bool, other: &'static str, fields: &Fields) -> &'static str
    ensures { result.now ≡ event_form plan other.now fields.now }
{
    if fields.is_word(0, b"join") {
        join_form(plan)
    } else if fields.is_word(0, b"leave") {
        "leave,SLOT,TASK"
    } else if fields.is_word(0, b"delay") {
        "delay,SLOT,TASK,BY"
    } else if fields.is_word(0, b"limit") {
        "limit,SLOT,COUNT"
    } else {
        other
    }
}

/// Appends the form of the event after a label, which may go on to it again.
#[tactic(auto, unfolding(crate::specs::Messages::Forms::labelled_form))]
fn push_labelled_form(text: &mut Vec<u8>, plan: bool, fields: &Fields) -> Result<(), AllocError>
    ensures { OnOk result (text.new.items ≡ text.old.items ++ labelled_form plan fields.now) }
{
    if fields.is_word(0, b"again") {
        text.extend_from_slice(b"again,")?;
        return text.extend_from_slice(event_form(plan, "EVENT", &fields.rest(1)).as_bytes());
    }
    text.extend_from_slice(event_form(plan, "EVENT", fields).as_bytes())
}

/// Appends the form of the change that the first of these fields names.
#[tactic(auto, unfolding(crate::specs::Messages::Forms::change_form))]
fn push_change_form(text: &mut Vec<u8>, plan: bool, fields: &Fields) -> Result<(), AllocError>
    ensures { OnOk result (text.new.items ≡ text.old.items ++ change_form plan fields.now) }
{
    if fields.is_word(0, b"strike") {
        return text.extend_from_slice(b"strike,ID");
    }
    if fields.is_word(0, b"alter") {
        text.extend_from_slice(b"alter,ID,")?;
        return text.extend_from_slice(event_form(plan, "EVENT", &fields.rest(2)).as_bytes());
    }
    if fields.is_word(0, b"label") {
        text.extend_from_slice(b"label,TEXT,")?;
        return push_labelled_form(text, plan, &fields.rest(2));
    }
    text.extend_from_slice(event_form(plan, "CHANGE", fields).as_bytes())
}

/// Appends the form of the record with these fields, of a plan or not: its word and the names of its fields, those that may be left
/// out in brackets.
#[tactic(auto, unfolding(crate::specs::Messages::Forms::record_form))]
pub(crate) fn push_form(text: &mut Vec<u8>, plan: bool, fields: &Fields) -> Result<(), AllocError>
    ensures { OnOk result (text.new.items ≡ text.old.items ++ record_form plan fields.now) }
{
    if fields.is_word(0, b"strict") {
        text.extend_from_slice(b"strict,")?;
        return push_change_form(text, plan, &fields.rest(1));
    }
    if fields.is_word(0, b"step") {
        return text.extend_from_slice(b"step[,N]");
    }
    if fields.is_word(0, b"settings") {
        return text.extend_from_slice(settings_form(plan).as_bytes());
    }
    if fields.is_word(0, b"slot") {
        return text.extend_from_slice(b"slot,LENGTH,UNIT");
    }
    if fields.is_word(0, b"name") {
        return text.extend_from_slice(b"name,TASK,TEXT");
    }
    if fields.is_word(0, b"plan") {
        return text.extend_from_slice(b"plan,1");
    }
    if fields.is_word(0, b"pfair") {
        return text.extend_from_slice(b"pfair,2");
    }
    push_change_form(text, plan, fields)
}

/// What stands after so many commas of a form.
fn after_commas(form: &[u8], commas: usize) -> &[u8]
    ensures { result.now ≡ after_commas commas form.now }
{
    let mut left = commas;
    let mut at = 0;
    while at < form.len() && left > 0 {
        if form[at] == b',' {
            left -= 1;
        }
        at += 1;
    }
    &form[at..]
}

/// Whether a byte ends the name of a field: a comma or a bracket.
fn is_mark(byte: u8) -> bool
    ensures { result ≡ is_mark byte }
{
    matches!(byte, b',' | b'[' | b']')
}

/// What stands before a comma or a bracket.
fn before_mark(form: &[u8]) -> &[u8]
    ensures { result.now ≡ before_mark form.now }
{
    let mut end = 0;
    while end < form.len() && !is_mark(form[end]) {
        end += 1;
    }
    &form[..end]
}

/// Appends the name of a field of the record with these fields, by its number from 1.
#[tactic(auto, unfolding(crate::specs::Messages::Forms::field_name))]
pub(crate) fn push_field_name(
    alloc: Global,
    text: &mut Vec<u8>,
    plan: bool,
    fields: &Fields,
    number: usize,
) -> Result<(), AllocError>
    ensures { OnOk result (text.new.items ≡ text.old.items ++ field_name plan fields.now number) }
{
    if fields.is_word(0, b"plan") || fields.is_word(0, b"pfair") {
        return text.extend_from_slice(b"VERSION");
    }
    let mut form = Vec::new(alloc);
    push_form(&mut form, plan, fields)?;
    text.extend_from_slice(before_mark(after_commas(&form, number.saturating_sub(1))))
}
