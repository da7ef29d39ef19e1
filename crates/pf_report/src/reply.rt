ghost use Rattle.std.specs.Prelude.{◌≡◌, ◌+◌, ◌++◌, ◌≤◌, codes, drop, length, take, OnOk};
ghost use Rattle.std.specs.Fmt.{decimal};
ghost use Rattle.std.specs.List.{flat_map};
ghost use Rattle.pf_place.specs.Lent.{lent_row};
ghost use Rattle.pf_desk.specs.declared.reply.Fault.TheVariants.{WouldDeny};
ghost use Rattle.pf_desk.specs.Views.{lent_reply};
ghost use Rattle.pf_report.specs.Tables.{pick_text};
ghost use Rattle.pf_report.specs.Replies.{reply_line, reply_text, fault_text, edit_fault_text, weight_text, place_text, HasFewPlaces};

use crate::tail_text::TailText;
use pf_admit::denial::Denial;
use pf_desk::reply::Fault;
use pf_desk::reply_view::ReplyView;
use pf_order::pick::Pick;
use pf_place::row_view::RowView;
use pf_scenario::fault::EditFault;
use pf_text::numbers::push_number;
use std::alloc::AllocError;

/// Adds a reply's line to a text. Its row has at most 64 places.
///
/// # Errors
///
/// Where memory is refused: the text is given up.
#[tactic(auto, unfolding(crate::specs::Replies::reply_line))]
pub fn push_reply(text: &mut Vec<u8>, reply: ReplyView<'_>) -> Result<(), AllocError>
    requires { HasFewPlaces (lent_reply reply) }
    ensures { OnOk result (text.new.items ≡ text.old.items ++ reply_line (lent_reply reply.entry)) }
{
    push_reply_text(text, reply)?;
    text.push(b'\n')?;
    Ok(())
}

fn push_reply_text(text: &mut Vec<u8>, reply: ReplyView<'_>) -> Result<(), AllocError>
    requires { HasFewPlaces (lent_reply reply) }
    ensures { OnOk result (text.new.items ≡ text.old.items ++ reply_text (lent_reply reply.entry)) }
{
    match reply {
        ReplyView::Edited { id } => push_edited(text, id),
        ReplyView::Stepped { slot, row } => {
            push_slot(text, slot)?;
            push_row(text, row)
        }
        ReplyView::Refused(fault) => {
            text.extend_from_slice(b"refused ")?;
            push_fault(text, fault)
        }
    }
}

/// The number of the event concerned.
fn push_edited(text: &mut Vec<u8>, id: u64) -> Result<(), AllocError>
    ensures { OnOk result (text.new.items ≡ text.old.items ++ (codes "event " ++ decimal id)) }
{
    let mut words = TailText::new();
    words.put_number(id);
    words.put_bytes(b"event ");
    text.extend_from_slice(words.as_bytes())
}

/// The slot that was stepped.
fn push_slot(text: &mut Vec<u8>, slot: u64) -> Result<(), AllocError>
    ensures { OnOk result (text.new.items ≡ text.old.items ++ (codes "slot " ++ (decimal slot ++ codes ":"))) }
{
    let mut words = TailText::new();
    words.put_byte(b':');
    words.put_number(slot);
    words.put_bytes(b"slot ");
    text.extend_from_slice(words.as_bytes())
}

/// Who sits on each processor, in order.
fn push_row(text: &mut Vec<u8>, row: RowView<'_>) -> Result<(), AllocError>
    requires { length (lent_row row) ≤ 64 }
    ensures { OnOk result (text.new.items ≡ text.old.items ++ flat_map place_text (lent_row row.entry)) }
{
    let processors = row.processors() as u32;
    for eight in 0..processors.div_ceil(8) {
        let from = eight * 8;
        push_places(text, row, from, processors.min(from + 8))?;
    }
    Ok(())
}

/// Who sits on the processors from `from` on and below `to`, of which there are at most eight.
fn push_places(text: &mut Vec<u8>, row: RowView<'_>, from: u32, to: u32) -> Result<(), AllocError>
    requires order { from ≤ to }
    requires few { to ≤ from + 8 }
    requires within { to ≤ length (lent_row row) }
    ensures { OnOk result (text.new.items ≡ text.old.items ++ flat_map place_text (drop from (take to (lent_row row.entry)))) }
{
    let mut places = TailText::new();
    for processor in (from..to).rev() {
        put_place(&mut places, row.get(processor));
    }
    text.extend_from_slice(places.as_bytes())?;
    Ok(())
}

/// Puts who sits on a processor before a text.
#[inline(always)]
fn put_place(text: &mut TailText, place: Option<Pick>)
    requires { length text.old + 22 ≤ 256 }
    ensures text { text.new ≡ place_text place ++ text.old }
    ensures room { length text.new ≤ length text.old + 22 }
{
    match place {
        None => {
            text.put_byte(b'-');
            text.put_byte(b' ');
        }
        Some(pick) => put_pick(text, pick),
    }
}

/// Puts a blank, the pick's task, a slash and its subtask before a text.
#[inline(always)]
fn put_pick(text: &mut TailText, pick: Pick)
    requires { length text.old + 22 ≤ 256 }
    ensures text { text.new ≡ (codes " " ++ pick_text pick) ++ text.old }
    ensures room { length text.new ≤ length text.old + 22 }
{
    text.put_short(pick.sub);
    text.put_byte(b'/');
    text.put_short(pick.task);
    text.put_byte(b' ');
}

/// Why a command was refused.
fn push_fault(text: &mut Vec<u8>, fault: Fault) -> Result<(), AllocError>
    ensures { OnOk result (text.new.items ≡ text.old.items ++ fault_text fault) }
{
    match fault {
        Fault::BadEdit(fault) => push_edit_fault(text, fault),
        Fault::AtHorizon => text.extend_from_slice(b"30 AtHorizon"),
        Fault::WouldDeny { id, denial } => push_would_deny(text, id, denial),
    }
}

/// That a strict edit would leave a denial.
fn push_would_deny(text: &mut Vec<u8>, id: u64, denial: Denial) -> Result<(), AllocError>
    ensures { OnOk result (text.new.items ≡ text.old.items ++ fault_text (WouldDeny id denial)) }
{
    text.extend_from_slice(b"31 WouldDeny ")?;
    push_number(text, id)?;
    text.extend_from_slice(b" ")?;
    push_code(text, denial.code(), denial.name())
}

/// A number and a name.
fn push_code(text: &mut Vec<u8>, code: u64, name: &str) -> Result<(), AllocError>
    ensures { OnOk result (text.new.items ≡ text.old.items ++ (decimal code ++ (codes " " ++ name.now))) }
{
    push_number(text, code)?;
    text.extend_from_slice(b" ")?;
    text.extend_from_slice(name.as_bytes())
}

/// The number and the name of a change's fault.
fn push_edit_fault(text: &mut Vec<u8>, fault: EditFault) -> Result<(), AllocError>
    ensures { OnOk result (text.new.items ≡ text.old.items ++ edit_fault_text fault) }
{
    push_code(text, fault.code(), fault.name())?;
    push_weight_code(text, fault)
}

/// After a weight's fault, the number of what is wrong with the weight.
fn push_weight_code(text: &mut Vec<u8>, fault: EditFault) -> Result<(), AllocError>
    ensures { OnOk result (text.new.items ≡ text.old.items ++ weight_text fault) }
{
    if let EditFault::BadWeight(wrong) = fault {
        text.extend_from_slice(b" ")?;
        push_number(text, wrong.code())?;
    }
    Ok(())
}
