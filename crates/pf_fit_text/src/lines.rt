ghost use Rattle.std.specs.Prelude.{◌≡◌, ◌++◌, ◌≤◌, ◌<◌, ◌^◌, Some, IfOk, IfSome, OnOk, codes};
ghost use Rattle.pf_text.specs.Columns.Decimals.{cut, up, with_places};
ghost use Rattle.pf_fit_text.specs.Lines.{above_line, counts_first, counts_line, free_text, is_proved_in, joins_line, joins_text, judged_text, late_end, late_line, level_text, overload_text, proved_text, run_line, settings_line, slot_text, stepped_text, top_lines, verdict_word};

use crate::carried::Carried;
use crate::element::push_element;
use pf_tally::level::Level;
use pf_text::columns::decimals::push_up;
use pf_verdict::strain::Strain;
use pf_verdict::verdict::Verdict;
use std::alloc::{AllocError, Global};

/// The words of a verdict.
pub(crate) fn verdict_word(verdict: Verdict) -> &'static str
    ensures { result.now ≡ verdict_word verdict }
{
    match verdict {
        Verdict::Fits => "fits",
        Verdict::FitsSoFar => "fits so far",
        Verdict::DoesNotFit => "does not fit",
    }
}

/// Appends a number that counts parts of 1/10000, with 4 decimals.
#[tactic(auto, using(crate::proofs::Places::four_places))]
fn push_places(text: &mut Vec<u8>, parts: u128) -> Result<(), AllocError>
    requires { parts < 2 ^ 112 }
    ensures { OnOk result (text.new.items ≡ text.old.items ++ with_places 4 parts) }
{
    push_up(text, parts, 10_000, 4)
}

/// Appends how many quanta are free.
fn push_left(text: &mut Vec<u8>, base: u64, units: u64) -> Result<(), AllocError>
    requires { 1 ≤ base }
    ensures { OnOk result (text.new.items ≡ text.old.items ++ (cut units base 4 ++ codes " free\n")) }
{
    push_places(text, u128::from(units) * 10_000 / u128::from(base))?;
    push_element(text, " free\n")
}

/// Appends how many quanta are too much.
fn push_excess(text: &mut Vec<u8>, base: u64, units: u64) -> Result<(), AllocError>
    requires { 1 ≤ base }
    ensures { OnOk result (text.new.items ≡ text.old.items ++ (up units base 4 ++ codes " too much\n")) }
{
    push_up(text, u128::from(units), u128::from(base), 4)?;
    push_element(text, " too much\n")
}

/// Appends the quanta that a slot has left, or by how many it is asked for too much.
#[tactic(auto, unfolding(crate::specs::Lines::free_text))]
fn push_free(text: &mut Vec<u8>, base: u64, level: Level) -> Result<(), AllocError>
    requires { 1 ≤ base }
    ensures { OnOk result (text.new.items ≡ text.old.items ++ free_text base level) }
{
    if level.room < level.load {
        push_excess(text, base, level.load - level.room)
    } else {
        push_left(text, base, level.room - level.load)
    }
}

/// Appends the processors of a slot, and its number.
#[tactic(auto, unfolding(crate::specs::Lines::slot_text))]
fn push_slot(alloc: Global, text: &mut Vec<u8>, base: u64, level: Level) -> Result<(), AllocError>
    requires { 1 ≤ base }
    ensures { OnOk result (text.new.items ≡ text.old.items ++ slot_text base level) }
{
    let count = level.room / base;
    let slot = level.slot;
    let words = format!(in alloc; " of {count} processors in slot {slot}, ")?;
    push_element(text, &words)
}

/// What a slot asks for, in processors, and what it has left.
#[tactic(auto, unfolding(crate::specs::Lines::level_text))]
fn level_text(alloc: Global, base: u64, level: Level) -> Result<Vec<u8>, AllocError>
    requires { 1 ≤ base }
    ensures { IfOk result (λ text. text.items ≡ level_text base level) }
{
    let mut text = Vec::new(alloc);
    push_up(&mut text, u128::from(level.load), u128::from(base), 4)?;
    push_slot(alloc, &mut text, base, level)?;
    push_free(&mut text, base, level)?;
    Ok(text)
}

/// What all joins held ask for together, of so many processors.
#[tactic(auto, unfolding(crate::specs::Lines::joins_line))]
fn joins_line(alloc: Global, base: u64, processors: u32, joins: u128) -> Result<Vec<u8>, AllocError>
    requires some { 1 ≤ base }
    requires few { joins < 2 ^ 100 }
    ensures { IfOk result (λ text. text.items ≡ joins_line base processors joins) }
{
    let words = format!(in alloc; " of {processors} processors\n")?;
    let mut text = Vec::from_slice(alloc, b"all joins together: ")?;
    push_up(&mut text, joins, u128::from(base), 4)?;
    push_element(&mut text, &words)?;
    Ok(text)
}

/// The same where it is asked for.
fn joins_text(
    alloc: Global,
    base: u64,
    processors: u32,
    joins: Option<u128>,
) -> Result<Vec<u8>, AllocError>
    requires some { 1 ≤ base }
    requires few { IfSome joins (λ j. j < 2 ^ 100) }
    ensures { IfOk result (λ text. text.items ≡ joins_text base processors joins) }
{
    match joins {
        Some(joins) => joins_line(alloc, base, processors, joins),
        None => Ok(Vec::new(alloc)),
    }
}

/// A text and another one behind it.
fn joined(alloc: Global, first: &[u8], second: &[u8]) -> Result<Vec<u8>, AllocError>
    ensures { IfOk result (λ text. text.items ≡ first.now ++ second.now) }
{
    let mut text = Vec::from_slice(alloc, first)?;
    text.extend_from_slice(second)?;
    Ok(text)
}

/// The counts, and then the tightest slot and what all joins ask for.
#[tactic(auto, unfolding(crate::specs::Lines::counts_first))]
fn counts_first(
    alloc: Global,
    counts: &[u8],
    tightest: &[u8],
    joins: &[u8],
) -> Result<Vec<u8>, AllocError>
    ensures { IfOk result (λ text. text.items ≡ counts_first counts.now tightest.now joins.now) }
{
    let mut text = Vec::from_slice(alloc, counts)?;
    push_element(&mut text, "tightest: ")?;
    text.extend_from_slice(tightest)?;
    text.extend_from_slice(joins)?;
    Ok(text)
}

/// The tightest slot, and then the counts; the counts first where it does not fit.
fn stepped_text(
    alloc: Global,
    verdict: Verdict,
    counts: &[u8],
    tightest: &[u8],
    joins: &[u8],
) -> Result<Vec<u8>, AllocError>
    ensures { IfOk result (λ text. text.items ≡ stepped_text verdict counts.now tightest.now joins.now) }
{
    match verdict {
        Verdict::Fits | Verdict::FitsSoFar => joined(alloc, tightest, counts),
        Verdict::DoesNotFit => counts_first(alloc, counts, tightest, joins),
    }
}

/// That of this slot.
fn level_lines(
    alloc: Global,
    carried: Carried,
    joins: Option<u128>,
    verdict: Verdict,
    counts: &[u8],
    level: Level,
) -> Result<Vec<u8>, AllocError>
    requires some { 1 ≤ carried.base }
    requires few { IfSome joins (λ j. j < 2 ^ 100) }
    ensures { IfOk result (λ text. text.items ≡ judged_text carried joins verdict counts.now (Some level)) }
{
    let tightest = level_text(alloc, carried.base, level)?;
    let joins = joins_text(alloc, carried.base, carried.processors, joins)?;
    stepped_text(alloc, verdict, counts, &tightest, &joins)
}

/// The same where no slot may have been stepped.
fn judged_text(
    alloc: Global,
    carried: Carried,
    joins: Option<u128>,
    verdict: Verdict,
    counts: &[u8],
    tightest: Option<Level>,
) -> Result<Vec<u8>, AllocError>
    requires some { 1 ≤ carried.base }
    requires few { IfSome joins (λ j. j < 2 ^ 100) }
    ensures { IfOk result (λ text. text.items ≡ judged_text carried joins verdict counts.now tightest) }
{
    match tightest {
        Some(level) => level_lines(alloc, carried, joins, verdict, counts, level),
        None => joined(alloc, b"no slot was stepped\n", counts),
    }
}

/// The verdict, the tightest slot and the counts.
#[tactic(auto, unfolding(crate::specs::Lines::top_lines))]
pub(crate) fn top_lines(
    alloc: Global,
    carried: Carried,
    joins: Option<u128>,
    verdict: Verdict,
    counts: &[u8],
    tightest: Option<Level>,
) -> Result<Vec<u8>, AllocError>
    requires some { 1 ≤ carried.base }
    requires few { IfSome joins (λ j. j < 2 ^ 100) }
    ensures { IfOk result (λ text. text.items ≡ top_lines carried joins verdict counts.now tightest) }
{
    let judged = judged_text(alloc, carried, joins, verdict, counts, tightest)?;
    let mut text = Vec::new(alloc);
    push_element(&mut text, verdict_word(verdict))?;
    push_element(&mut text, ": ")?;
    text.extend_from_slice(&judged)?;
    Ok(text)
}

/// How many slots there were, and what was refused, denied, not reached and missed.
#[tactic(auto, unfolding(crate::specs::Lines::counts_line))]
pub(crate) fn counts_line(
    alloc: Global,
    now: u64,
    refused: u64,
    denied: u64,
    unreached: u64,
    missed: u128,
) -> Result<Vec<u8>, AllocError>
    ensures { IfOk result (λ text. text.items ≡ counts_line now refused denied unreached missed) }
{
    let line = format!(in alloc;
        "in {now} slots: {refused} refused, {denied} denied, {unreached} not reached, {missed} windows missed\n"
    )?;
    Ok(line.into_bytes())
}

/// Appends how many slots ask for more than their processors, and the first.
#[tactic(auto, unfolding(crate::specs::Lines::above_line))]
fn push_above(alloc: Global, text: &mut Vec<u8>, above: u64, first: u64) -> Result<(), AllocError>
    ensures { OnOk result (text.new.items ≡ text.old.items ++ above_line above first) }
{
    let line = format!(in alloc;
        "overloaded: in {above} slots the load is above the processors in use, first in slot {first}\n"
    )?;
    push_element(text, &line)
}

/// Appends how many slots late a window can be.
#[tactic(auto, unfolding(crate::specs::Lines::late_end))]
fn push_late_end(alloc: Global, text: &mut Vec<u8>, late: u128) -> Result<(), AllocError>
    ensures { OnOk result (text.new.items ≡ text.old.items ++ late_end late) }
{
    let words = format!(in alloc;
        " quanta too many in all, so no window is ever more than {late} slots late in them\n"
    )?;
    push_element(text, &words)
}

/// Appends by how much, and how late it can have made a window.
#[tactic(auto, unfolding(crate::specs::Lines::late_line))]
fn push_late(alloc: Global, text: &mut Vec<u8>, base: u64, units: u128) -> Result<(), AllocError>
    requires some { 1 ≤ base }
    requires few { units < 2 ^ 100 }
    ensures { OnOk result (text.new.items ≡ text.old.items ++ late_line base units) }
{
    let base = u128::from(base);
    let late = units / base;
    push_element(text, "by theorem: they are asked for ")?;
    push_up(text, units, base, 4)?;
    push_late_end(alloc, text, late)
}

/// What is told of an overload, where there is one.
pub(crate) fn overload_text(
    alloc: Global,
    base: u64,
    first: Option<u64>,
    above: u64,
    units: u128,
) -> Result<Vec<u8>, AllocError>
    requires some { 1 ≤ base }
    requires few { units < 2 ^ 100 }
    ensures { IfOk result (λ text. text.items ≡ overload_text base first above units) }
{
    let mut text = Vec::new(alloc);
    if let Some(first) = first {
        push_above(alloc, &mut text, above, first)?;
        push_late(alloc, &mut text, base, units)?;
    }
    Ok(text)
}

/// Appends that no window is missed in the slots stepped.
#[tactic(auto, unfolding(crate::specs::Lines::run_line))]
fn push_run(text: &mut Vec<u8>) -> Result<(), AllocError>
    ensures { OnOk result (text.new.items ≡ text.old.items ++ run_line) }
{
    push_element(
        text,
        "by theorem: in each slot stepped the load is within the processors in use, so no window is missed in them\n",
    )
}

/// Appends that none is missed later.
#[tactic(auto, unfolding(crate::specs::Lines::settings_line))]
fn push_settings(text: &mut Vec<u8>) -> Result<(), AllocError>
    ensures { OnOk result (text.new.items ≡ text.old.items ++ settings_line) }
{
    push_element(
        text,
        "by theorem: the processors in use carry the cap, so no window is missed later either, whatever joins, leaves or is delayed\n",
    )
}

/// Whether no window is missed in the slots stepped, of which there is one at least, as none asks for more than its
/// processors.
pub(crate) fn is_proved_in(now: u64, strain: Strain) -> bool
    ensures { result ≡ is_proved_in now strain }
{
    now > 0 && strain.above == 0
}

/// What is proved of the slots stepped, and of later ones.
pub(crate) fn proved_text(alloc: Global, run: bool, settings: bool) -> Result<Vec<u8>, AllocError>
    ensures { IfOk result (λ text. text.items ≡ proved_text run settings) }
{
    let mut text = Vec::new(alloc);
    if run {
        push_run(&mut text)?;
    }
    if settings {
        push_settings(&mut text)?;
    }
    Ok(text)
}
