ghost use Rattle.std.specs.Prelude.{◌≡◌, ◌^◌, ◌++◌, ◌<◌, ◌≤◌, All, IfOk, OnOk, length, codes};
ghost use Rattle.pf_weight.specs.declared.task.TheConstants.{LARGEST_TASK};
ghost use Rattle.pf_text.specs.Columns.Decimals.{cut, up, with_places};
ghost use Rattle.pf_convert.specs.Slots.{IsTimed};
ghost use Rattle.pf_convert.specs.Fit.Filled.{filled};
ghost use Rattle.pf_convert.specs.Fit.Headline.{arrivals_words, asked_words, balance_text, choice_text, fit_words, processors_word, spaced_text, switch_words, verdict_front, verdict_text};
ghost use Rattle.pf_convert.specs.Fit.Shown.{IsShown};

use crate::conversion::times::least_work_of;
use crate::conversion::tried_line::push_tried;
use crate::fit::filled::push_filled;
use crate::fit::shown::Shown;
use crate::list::parts::{Part, push_parts};
use crate::words::arrivals::Arrivals;
use pf_text::columns::decimals::push_up;
use pf_vocabulary::names::unit::Unit;
use std::alloc::{AllocError, Global};

/// How many decimals shares have.
pub const PLACES: u32 = 4;

/// How jobs arrive.
pub fn arrivals_words(arrivals: Arrivals) -> &'static str
    ensures { result.now ≡ arrivals_words arrivals }
{
    match arrivals {
        Arrivals::Aligned => "arrivals on slots",
        Arrivals::Any => "arrivals at any time",
    }
}

/// The word for so many processors.
fn processors_word(count: u64) -> &'static str
    ensures { result.now ≡ processors_word count }
{
    if count == 1 {
        " processor"
    } else {
        " processors"
    }
}

/// The words of a verdict.
fn fit_words(fit: bool) -> &'static str
    ensures { result.now ≡ fit_words fit }
{
    if fit { "fits " } else { "does not fit " }
}

/// Adds a time with a blank and the unit after it.
///
/// # Errors
///
/// Where memory is refused: a front of it was added.
pub fn push_spaced(text: &mut Vec<u8>, unit: Unit, time: u128) -> Result<(), AllocError>
    ensures { OnOk result (text.new.items ≡ text.old.items ++ spaced_text unit time) }
{
    push_parts(
        text,
        &[
            Part::Decimal(unit, time),
            Part::Words(" "),
            Part::Words(unit.word()),
        ],
    )
}

/// Adds whether the plan fits, and by how much.
///
/// # Errors
///
/// Where memory is refused: a front of it was added.
pub fn push_verdict(text: &mut Vec<u8>, shown: &Shown<'_, '_>) -> Result<(), AllocError>
    requires { IsShown shown.now }
    ensures { OnOk result (text.new.items ≡ text.old.items ++ verdict_text shown.now) }
{
    push_verdict_front(text, shown)?;
    push_balance(text, shown)
}

/// Adds the front of the verdict.
fn push_verdict_front(text: &mut Vec<u8>, shown: &Shown<'_, '_>) -> Result<(), AllocError>
    ensures { OnOk result (text.new.items ≡ text.old.items ++ verdict_front shown.now) }
{
    push_parts(
        text,
        &[
            Part::Words(fit_words(shown.is_fit())),
            Part::Number(shown.processors),
            Part::Words(processors_word(shown.processors)),
            Part::Words(", "),
            Part::Words(arrivals_words(shown.terms.arrivals)),
            Part::Words(": "),
        ],
    )
}

/// Adds what is free, or by how much it is too much.
fn push_balance(text: &mut Vec<u8>, shown: &Shown<'_, '_>) -> Result<(), AllocError>
    requires { IsShown shown.now }
    ensures { OnOk result (text.new.items ≡ text.old.items ++ balance_text shown.now) }
{
    let load = shown.plan.load;
    let base = shown.plan.base;
    let room = shown.processors * base;
    if shown.is_fit() {
        push_free(text, room.saturating_sub(load), base)
    } else {
        push_excess(text, load.saturating_sub(room), base)
    }
}

/// Adds a number that counts parts of 10^-4, with 4 decimals.
#[tactic(auto, using(crate::proofs::FitLemmas::Places::four_places))]
fn push_places(text: &mut Vec<u8>, parts: u128) -> Result<(), AllocError>
    requires { parts < 2 ^ 112 }
    ensures { OnOk result (text.new.items ≡ text.old.items ++ with_places PLACES parts) }
{
    push_up(text, parts, 10_000, PLACES)
}

/// Adds how much is free.
fn push_free(text: &mut Vec<u8>, free: u64, base: u64) -> Result<(), AllocError>
    requires some { 1 ≤ base }
    ensures { OnOk result (text.new.items ≡ text.old.items ++ (cut free base PLACES ++ codes " free\n")) }
{
    push_places(text, u128::from(free) * 10_000 / u128::from(base))?;
    text.extend_from_slice(b" free\n")
}

/// Adds how much is too much.
fn push_excess(text: &mut Vec<u8>, excess: u64, base: u64) -> Result<(), AllocError>
    requires some { 1 ≤ base }
    ensures { OnOk result (text.new.items ≡ text.old.items ++ (up excess base PLACES ++ codes " too much\n")) }
{
    push_up(text, u128::from(excess), u128::from(base), PLACES)?;
    text.extend_from_slice(b" too much\n")
}

/// Adds what is asked for, and the quantum.
///
/// # Errors
///
/// Where memory is refused: a front of it was added.
pub fn push_asked(
    alloc: Global,
    text: &mut Vec<u8>,
    shown: &Shown<'_, '_>,
) -> Result<(), AllocError>
    requires shown { IsShown shown.now }
    requires timed { All (λ t. IsTimed t.times) shown.now.listed.now }
    requires few { length shown.now.listed.now ≤ LARGEST_TASK }
    ensures { OnOk result (text.new.items ≡ text.old.items ++ filled (asked_words shown.now)) }
{
    let words = asked_words(alloc, shown)?;
    push_filled(alloc, text, &words)
}

/// The words of what is asked for.
fn asked_words(alloc: Global, shown: &Shown<'_, '_>) -> Result<Vec<u8>, AllocError>
    requires shown { IsShown shown.now }
    requires timed { All (λ t. IsTimed t.times) shown.now.listed.now }
    requires few { length shown.now.listed.now ≤ LARGEST_TASK }
    ensures { IfOk result (λ words. words.items ≡ asked_words shown.now) }
{
    let work = least_work_of(alloc, shown.listed)?;
    let mut words = Vec::new(alloc);
    words.extend_from_slice(b"asked for ")?;
    push_up(
        &mut words,
        u128::from(shown.plan.load),
        u128::from(shown.plan.base),
        PLACES,
    )?;
    words.extend_from_slice(b", work alone ")?;
    push_places(&mut words, work / 100_000)?;
    words.extend_from_slice(b"; quantum ")?;
    push_spaced(
        &mut words,
        shown.file.unit,
        u128::from(shown.quantum.length),
    )?;
    push_switch(&mut words, shown.file.unit, shown.quantum.switch)?;
    Ok(words)
}

/// Adds what a switch takes, where it takes some.
fn push_switch(text: &mut Vec<u8>, unit: Unit, switch: u64) -> Result<(), AllocError>
    ensures { OnOk result (text.new.items ≡ text.old.items ++ switch_words unit switch) }
{
    if switch == 0 {
        return Ok(());
    }
    text.extend_from_slice(b", switch ")?;
    push_spaced(text, unit, u128::from(switch))
}

/// Adds of how many quanta the plan is shown, where several were tried or none was given.
///
/// # Errors
///
/// Where memory is refused: a front of it was added.
pub fn push_choice(
    alloc: Global,
    text: &mut Vec<u8>,
    shown: &Shown<'_, '_>,
) -> Result<(), AllocError>
    ensures { OnOk result (text.new.items ≡ text.old.items ++ choice_text shown.now) }
{
    if shown.is_given && shown.count < 2 {
        return Ok(());
    }
    let mut words = Vec::new(alloc);
    push_tried(
        &mut words,
        shown.terms.processors,
        shown.margins.processors,
        shown.count,
    )?;
    push_filled(alloc, text, &words)
}
