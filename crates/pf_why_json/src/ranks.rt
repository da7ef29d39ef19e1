ghost use Rattle.std.specs.Prelude.{◌≡◌, ◌++◌, None, map, IfOk, OnOk};
ghost use Rattle.std.specs.Option.{option_map};
ghost use Rattle.pf_place.specs.Lent.{lent_row};
ghost use Rattle.pf_why_text.specs.Ranks.{IsSeating, seating_of};
ghost use Rattle.pf_why_json.specs.Ranks.{by_json, kept_word, order_json, places_json, rank_json, ranks_json, seat_json, sitter_json, subtask_json};

use crate::members::{push_quoted, push_quoted_or_null};
use pf_notes::words::{push_between, push_two, push_word};
use pf_order::pick::Pick;
use pf_place::row_view::RowView;
use pf_vocabulary::names::names::Names;
use pf_why::rule::Rule;
use pf_why::seat::{Choice, Seat};
use pf_why::subtask::Subtask;
use pf_why_text::answer::answer_words;
use pf_why_text::seating::Seating;
use std::alloc::{AllocError, Global};

/// Who sits on a processor, as a pair.
#[tactic(auto, unfolding(crate::specs::Ranks::sitter_json))]
fn sitter_json(alloc: Global, sitter: Option<Pick>) -> Result<Vec<u8>, AllocError>
    ensures { IfOk result (λ text. text.items ≡ sitter_json sitter) }
{
    let mut text = Vec::new(alloc);
    match sitter {
        Some(pick) => {
            push_between(&mut text, b"[", u64::from(pick.task), b",")?;
            push_between(&mut text, b"", u64::from(pick.sub), b"]")?;
        }
        None => text.extend_from_slice(b"null")?,
    }
    Ok(text)
}

/// Who sits on each of so many processors.
pub(crate) fn places_json(
    alloc: Global,
    processors: u32,
    row: RowView<'_>,
) -> Result<Vec<Vec<u8>>, AllocError>
    ensures { IfOk result (λ texts. map (λ v. v.items) texts.items ≡ places_json processors (lent_row row.entry)) }
{
    let mut texts = Vec::new(alloc);
    for processor in 0..processors {
        texts.push(sitter_json(alloc, row.get(processor))?)?;
    }
    Ok(texts)
}

/// The word of the rule that puts x after the one before it.
fn by_word(before: Option<Subtask>, x: Subtask) -> Option<&'static [u8]>
    ensures { option_map (λ word. word.now) result ≡ by_json before x }
{
    match before {
        Some(y) => Some(Rule::between(y, x).word().as_bytes()),
        None => None,
    }
}

/// Adds the keys of a rank up to `group`.
#[tactic(auto, unfolding(crate::specs::Ranks::order_json))]
fn push_order(text: &mut Vec<u8>, before: Option<Subtask>, x: Subtask) -> Result<(), AllocError>
    ensures { OnOk result (text.new.items ≡ text.old.items ++ order_json before x) }
{
    push_word(text, b"{\"bit\":", x.bit)?;
    push_quoted_or_null(text, b",\"by\":", by_word(before, x))?;
    push_word(text, b",\"deadline\":", x.deadline)?;
    push_word(text, b",\"group\":", x.group)
}

/// Whether the processor was kept.
fn kept_word(choice: Choice) -> &'static [u8]
    ensures { result.now ≡ kept_word choice }
{
    match choice {
        Choice::Kept => b"true",
        Choice::LowestFree | Choice::OutOfUse(_) => b"false",
    }
}

/// After them those up to `processor`.
#[tactic(auto, unfolding(crate::specs::Ranks::seat_json))]
fn push_seat(text: &mut Vec<u8>, seat: Option<Seat>) -> Result<(), AllocError>
    ensures { OnOk result (text.new.items ≡ text.old.items ++ seat_json seat) }
{
    match seat {
        Some(seat) => {
            text.extend_from_slice(b",\"kept\":")?;
            text.extend_from_slice(kept_word(seat.choice))?;
            push_word(text, b",\"processor\":", seat.processor)
        }
        None => text.extend_from_slice(b",\"kept\":null,\"processor\":null"),
    }
}

/// And those up to `task`.
#[tactic(auto, unfolding(crate::specs::Ranks::subtask_json))]
fn push_subtask(text: &mut Vec<u8>, rank: u64, x: Subtask) -> Result<(), AllocError>
    ensures { OnOk result (text.new.items ≡ text.old.items ++ subtask_json rank x) }
{
    push_two(text, b",\"rank\":", rank, b",\"release\":", x.release)?;
    push_two(text, b",\"sub\":", x.sub, b",\"task\":", x.task)
}

/// A rank: `last` is the last that runs, `before` the one before.
fn rank_json(
    alloc: Global,
    names: &Names,
    seating: Seating<'_>,
    last: Option<Subtask>,
    rank: u64,
    before: Option<Subtask>,
    x: Subtask,
) -> Result<Vec<u8>, AllocError>
    requires { IsSeating seating }
    ensures { IfOk result (λ text. text.items ≡ rank_json names.now (seating_of seating.entry) last rank before x) }
{
    let seat = seating.seat(x);
    let answer = answer_words(alloc, names, seating.slot, last, seat, x)?;
    let mut text = Vec::new(alloc);
    push_order(&mut text, before, x)?;
    push_seat(&mut text, seat)?;
    push_subtask(&mut text, rank, x)?;
    push_quoted(&mut text, b",\"text\":", answer.as_bytes())?;
    text.extend_from_slice(b"}")?;
    Ok(text)
}

/// Each rank of a ranking, of which `last` is the last that runs.
pub(crate) fn ranks_json(
    alloc: Global,
    names: &Names,
    seating: Seating<'_>,
    last: Option<Subtask>,
    ranking: &[Subtask],
) -> Result<Vec<Vec<u8>>, AllocError>
    requires { IsSeating seating }
    ensures { IfOk result (λ texts. map (λ v. v.items) texts.items ≡ ranks_json names.now (seating_of seating.entry) last 1 None ranking.now) }
{
    let mut texts = Vec::new(alloc);
    let mut before = None;
    let mut rank = 1;
    for x in ranking {
        let text = rank_json(alloc, names, seating, last, rank, before, *x)?;
        texts.push(text)?;
        before = Some(*x);
        rank += 1;
    }
    Ok(texts)
}
