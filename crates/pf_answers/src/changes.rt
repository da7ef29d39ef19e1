ghost use Rattle.std.specs.Prelude.{◌≡◌, ◌==◌, ◌++◌, [], if◌then◌else◌, codes, OnOk};
ghost use Rattle.pf_desk.specs.declared.reply.Reply.TheVariants.{Edited};
ghost use Rattle.pf_report.specs.Replies.{reply_line};
ghost use Rattle.pf_answers.specs.Changes.{are_same, changed_line, changed_member, difference, made_json, made_text, pair, pairs, slots_line, slots_member};

use crate::counts::Counts;
use crate::keys::{changed_key, misses_key};
use crate::manner::Manner;
use crate::slots::SlotsChanged;
use pf_desk::reply_view::ReplyView;
use pf_notes::words::{push_between, push_two, push_word};
use pf_report::reply::push_reply;
use std::alloc::AllocError;

/// Appends how a number was and is.
fn push_difference(text: &mut Vec<u8>, word: &[u8], was: u64, is: u64) -> Result<(), AllocError>
    ensures { OnOk result (text.new.items ≡ text.old.items ++ difference word.now was is) }
{
    push_two(text, word, was, b" -> ", is)
}

/// Appends how a number was and is, where it is another one.
fn push_if_other(text: &mut Vec<u8>, word: &[u8], was: u64, is: u64) -> Result<(), AllocError>
    ensures { OnOk result (text.new.items ≡ text.old.items ++ (if was == is then [] else difference word.now was is)) }
{
    if was == is {
        return Ok(());
    }
    push_difference(text, word, was, is)
}

/// Appends what differs from before.
fn push_line(text: &mut Vec<u8>, before: Counts, after: Counts) -> Result<(), AllocError>
    ensures { OnOk result (text.new.items ≡ text.old.items ++ changed_line before after) }
{
    if before.misses != after.misses {
        push_difference(text, b"  misses ", before.misses, after.misses)?;
        push_if_other(text, b"; denials ", before.denials, after.denials)?;
        return text.extend_from_slice(b"\n");
    }
    if before.denials == after.denials {
        return Ok(());
    }
    push_difference(text, b"  denials ", before.denials, after.denials)?;
    text.extend_from_slice(b"\n")
}

/// Appends which slots are not as before.
fn push_slots(text: &mut Vec<u8>, slots: SlotsChanged) -> Result<(), AllocError>
    ensures { OnOk result (text.new.items ≡ text.old.items ++ slots_line slots) }
{
    match slots {
        SlotsChanged::Untouched => Ok(()),
        SlotsChanged::Same => text.extend_from_slice(b"  no slot changed\n"),
        SlotsChanged::Between { first, last } if first == last => {
            push_between(text, b"  slot ", first, b" changed\n")
        }
        SlotsChanged::Between { first, last } => {
            push_two(text, b"  slots ", first, b" to ", last)?;
            text.extend_from_slice(b" changed\n")
        }
    }
}

/// Appends what is not as before, each as a line.
fn push_lines(
    text: &mut Vec<u8>,
    slots: SlotsChanged,
    before: Counts,
    after: Counts,
) -> Result<(), AllocError>
    ensures { OnOk result (text.new.items ≡ text.old.items ++ (slots_line slots ++ changed_line before after)) }
{
    push_slots(text, slots)?;
    push_line(text, before, after)
}

/// Appends two numbers and the end of their list.
fn push_pair(text: &mut Vec<u8>, key: &[u8], was: u64, is: u64) -> Result<(), AllocError>
    ensures { OnOk result (text.new.items ≡ text.old.items ++ pair key.now was is) }
{
    push_two(text, key, was, b",", is)?;
    text.extend_from_slice(b"]")
}

/// Whether nothing differs.
fn are_same(before: Counts, after: Counts) -> bool
    ensures { result ≡ are_same before after }
{
    before.misses == after.misses && before.denials == after.denials
}

/// Appends how the numbers were and are, as a member.
#[tactic(auto, unfolding(crate::specs::Changes::pairs))]
fn push_pairs(text: &mut Vec<u8>, before: Counts, after: Counts) -> Result<(), AllocError>
    ensures { OnOk result (text.new.items ≡ text.old.items ++ pairs before after) }
{
    push_pair(text, changed_key(), before.denials, after.denials)?;
    push_pair(text, misses_key(), before.misses, after.misses)?;
    text.extend_from_slice(b"},")
}

/// Appends what differs from before as a member.
fn push_member(text: &mut Vec<u8>, before: Counts, after: Counts) -> Result<(), AllocError>
    ensures { OnOk result (text.new.items ≡ text.old.items ++ changed_member before after) }
{
    if are_same(before, after) {
        return Ok(());
    }
    push_pairs(text, before, after)
}

/// Appends which slots are not as before, as a member.
fn push_slots_member(text: &mut Vec<u8>, slots: SlotsChanged) -> Result<(), AllocError>
    ensures { OnOk result (text.new.items ≡ text.old.items ++ slots_member slots) }
{
    match slots {
        SlotsChanged::Untouched => Ok(()),
        SlotsChanged::Same => text.extend_from_slice(b",\"slots\":null"),
        SlotsChanged::Between { first, last } => push_pair(text, b",\"slots\":[", first, last),
    }
}

/// Appends the answer as an object.
fn push_json(
    text: &mut Vec<u8>,
    id: u64,
    slots: SlotsChanged,
    before: Counts,
    after: Counts,
) -> Result<(), AllocError>
    ensures { OnOk result (text.new.items ≡ text.old.items ++ made_json id slots before after) }
{
    text.extend_from_slice(b"{")?;
    push_member(text, before, after)?;
    push_word(text, b"\"event\":", id)?;
    push_slots_member(text, slots)?;
    text.extend_from_slice(b"}\n")
}

/// Appends the answer to a change that was made: the number of its event, which slots are not as before, where it touches one that was
/// stepped, and where one differs, how many lines the tables of missed windows and of denials had before and have now.
///
/// # Errors
///
/// Where memory is refused: the text is given up.
pub fn push_made(
    text: &mut Vec<u8>,
    manner: Manner,
    id: u64,
    slots: SlotsChanged,
    before: Counts,
    after: Counts,
) -> Result<(), AllocError>
    ensures { OnOk result (text.new.items ≡ text.old.items ++ made_text manner id slots before after) }
{
    if manner.json {
        return push_json(text, id, slots, before, after);
    }
    push_reply(text, ReplyView::Edited { id })?;
    if manner.quiet {
        return Ok(());
    }
    push_lines(text, slots, before, after)
}
