ghost use Rattle.std.specs.Prelude.{◌≡◌, ◌++◌, OnOk};
ghost use Rattle.pf_answers.specs.Refused.{denied_members, refusal_end, refusal_front, refusal_object, refused_json, refused_text, sentence_line, weight_member};

use crate::keys::{code_key, reason_key, refused_key};
use crate::manner::Manner;
use crate::quoted::push_quoted;
use pf_desk::reply::Fault;
use pf_desk::reply_view::ReplyView;
use pf_notes::words::{push_two, push_word};
use pf_report::reply::push_reply;
use pf_run_notes::refusals::{fault_code, fault_name};
use pf_scenario::fault::EditFault;
use std::alloc::AllocError;

/// Appends a sentence, indented.
pub(crate) fn push_sentence(text: &mut Vec<u8>, why: &[u8]) -> Result<(), AllocError>
    ensures { OnOk result (text.new.items ≡ text.old.items ++ sentence_line why.now) }
{
    text.extend_from_slice(b"  ")?;
    text.extend_from_slice(why)?;
    text.extend_from_slice(b"\n")
}

/// Appends what a strict change would leave denied.
fn push_denied(text: &mut Vec<u8>, fault: Fault) -> Result<(), AllocError>
    ensures { OnOk result (text.new.items ≡ text.old.items ++ denied_members fault) }
{
    match fault {
        Fault::WouldDeny { id, denial } => {
            push_two(text, b",\"denial\":", denial.code(), b",\"event\":", id)
        }
        Fault::BadEdit(_) | Fault::AtHorizon => Ok(()),
    }
}

/// Appends what is wrong with a weight.
fn push_weight(text: &mut Vec<u8>, fault: Fault) -> Result<(), AllocError>
    ensures { OnOk result (text.new.items ≡ text.old.items ++ weight_member fault) }
{
    match fault {
        Fault::BadEdit(EditFault::BadWeight(wrong)) => {
            push_word(text, b",\"weight\":", wrong.code())
        }
        _ => Ok(()),
    }
}

/// Appends the object of a refusal up to its name.
#[tactic(auto, unfolding(crate::specs::Refused::refusal_front))]
fn push_front(text: &mut Vec<u8>, fault: Fault) -> Result<(), AllocError>
    ensures { OnOk result (text.new.items ≡ text.old.items ++ refusal_front fault) }
{
    push_word(text, code_key(), fault_code(fault))?;
    push_denied(text, fault)?;
    text.extend_from_slice(reason_key())?;
    text.extend_from_slice(fault_name(fault).as_bytes())?;
    text.extend_from_slice(b"\"")
}

/// Appends it after its name.
#[tactic(auto, unfolding(crate::specs::Refused::refusal_end))]
fn push_end(text: &mut Vec<u8>, fault: Fault, why: &[u8]) -> Result<(), AllocError>
    ensures { OnOk result (text.new.items ≡ text.old.items ++ refusal_end fault why.now) }
{
    push_weight(text, fault)?;
    text.extend_from_slice(b",\"why\":")?;
    push_quoted(text, why)?;
    text.extend_from_slice(b"}")
}

/// Appends a refusal as an object.
#[tactic(auto, unfolding(crate::specs::Refused::refusal_object))]
pub(crate) fn push_object(text: &mut Vec<u8>, fault: Fault, why: &[u8]) -> Result<(), AllocError>
    ensures { OnOk result (text.new.items ≡ text.old.items ++ refusal_object fault why.now) }
{
    push_front(text, fault)?;
    push_end(text, fault, why)
}

/// Appends the answer as an object.
#[tactic(auto, unfolding(crate::specs::Refused::refused_json))]
fn push_json(text: &mut Vec<u8>, fault: Fault, why: &[u8]) -> Result<(), AllocError>
    ensures { OnOk result (text.new.items ≡ text.old.items ++ refused_json fault why.now) }
{
    text.extend_from_slice(refused_key())?;
    push_object(text, fault, why)?;
    text.extend_from_slice(b"}\n")
}

/// Appends the answer to a change that was refused, with the sentence that tells why.
///
/// # Errors
///
/// Where memory is refused: the text is given up.
pub fn push_refused(
    text: &mut Vec<u8>,
    manner: Manner,
    fault: Fault,
    why: &[u8],
) -> Result<(), AllocError>
    ensures { OnOk result (text.new.items ≡ text.old.items ++ refused_text manner fault why.now) }
{
    if manner.json {
        return push_json(text, fault, why);
    }
    push_reply(text, ReplyView::Refused(fault))?;
    if manner.quiet {
        return Ok(());
    }
    push_sentence(text, why)
}
