ghost use Rattle.std.specs.Prelude.{◌≡◌, ◌++◌, OnOk};
ghost use Rattle.pf_convert.specs.Fit.NextStep.{arrivals_word, convert_words, file_word, fit_again_words, given_unit_word, given_words, needed_words, next_text, quantum_word, switch_word};

use crate::fit::shown::Shown;
use crate::list::parts::{Part, push_parts};
use crate::words::arrivals::Arrivals;
use pf_message::shell::push_shell_word;
use pf_scenario::settings::MOST_PROCESSORS;
use pf_vocabulary::names::unit::Unit;
use std::alloc::AllocError;

/// Adds the command that comes next: one that makes the plan, or where it does not fit one for as many processors as are needed,
/// if there may be so many.
///
/// # Errors
///
/// Where memory is refused: a front of it was added.
pub fn push_next(text: &mut Vec<u8>, shown: &Shown<'_, '_>) -> Result<(), AllocError>
    ensures { OnOk result (text.new.items ≡ text.old.items ++ next_text shown.now) }
{
    if shown.is_fit() {
        push_convert(text, shown)?;
        push_given(text, shown)
    } else if shown.margins.processors <= MOST_PROCESSORS {
        push_fit_again(text, shown)?;
        push_given(text, shown)
    } else {
        Ok(())
    }
}

/// Adds the front of the command that makes the plan.
fn push_convert(text: &mut Vec<u8>, shown: &Shown<'_, '_>) -> Result<(), AllocError>
    ensures { OnOk result (text.new.items ≡ text.old.items ++ convert_words shown.now) }
{
    let length = u128::from(shown.quantum.length);
    push_parts(
        text,
        &[
            Part::Words("next: pfair convert --quantum "),
            Part::Time(shown.file.unit, length),
            Part::Words(" --processors "),
            Part::Number(shown.processors),
        ],
    )
}

/// Adds the front of the command for as many processors as are needed.
fn push_fit_again(text: &mut Vec<u8>, shown: &Shown<'_, '_>) -> Result<(), AllocError>
    ensures { OnOk result (text.new.items ≡ text.old.items ++ fit_again_words shown.now) }
{
    push_needed(text, shown.margins.processors)?;
    push_quantum(text, shown.file.unit, shown.quantum.length, shown.is_given)
}

/// Adds the words of so many processors.
fn push_needed(text: &mut Vec<u8>, processors: u64) -> Result<(), AllocError>
    ensures { OnOk result (text.new.items ≡ text.old.items ++ needed_words processors) }
{
    push_parts(
        text,
        &[
            Part::Words("next: pfair fit --processors "),
            Part::Number(processors),
        ],
    )
}

/// Adds the words of the quantum, where quanta are given.
fn push_quantum(
    text: &mut Vec<u8>,
    unit: Unit,
    quantum: u64,
    is_given: bool,
) -> Result<(), AllocError>
    ensures { OnOk result (text.new.items ≡ text.old.items ++ quantum_word unit quantum is_given) }
{
    if !is_given {
        return Ok(());
    }
    let length = u128::from(quantum);
    push_parts(
        text,
        &[Part::Words(" --quantum "), Part::Time(unit, length)],
    )
}

/// Adds the words that were given, but for quanta and processors, and the end of the line.
fn push_given(text: &mut Vec<u8>, shown: &Shown<'_, '_>) -> Result<(), AllocError>
    ensures { OnOk result (text.new.items ≡ text.old.items ++ given_words shown.now) }
{
    push_switch(text, shown.file.unit, shown.quantum.switch)?;
    push_unit(text, shown.unit)?;
    text.extend_from_slice(arrivals_word(shown.terms.arrivals).as_bytes())?;
    push_file(text, shown.file.name)?;
    text.extend_from_slice(b"\n")
}

/// Adds the words of a switch that takes time.
fn push_switch(text: &mut Vec<u8>, unit: Unit, switch: u64) -> Result<(), AllocError>
    ensures { OnOk result (text.new.items ≡ text.old.items ++ switch_word unit switch) }
{
    if switch == 0 {
        return Ok(());
    }
    let length = u128::from(switch);
    push_parts(text, &[Part::Words(" --switch "), Part::Time(unit, length)])
}

/// Adds the words of the unit, where it is given.
fn push_unit(text: &mut Vec<u8>, unit: Option<Unit>) -> Result<(), AllocError>
    ensures { OnOk result (text.new.items ≡ text.old.items ++ given_unit_word unit) }
{
    match unit {
        Some(unit) => push_parts(text, &[Part::Words(" --unit "), Part::Words(unit.word())]),
        None => Ok(()),
    }
}

/// The words of arrivals that are not those without a word.
fn arrivals_word(arrivals: Arrivals) -> &'static str
    ensures { result.now ≡ arrivals_word arrivals }
{
    match arrivals {
        Arrivals::Aligned => "",
        Arrivals::Any => " --arrivals any",
    }
}

/// Adds the name of the file, nothing for standard input.
fn push_file(text: &mut Vec<u8>, name: &[u8]) -> Result<(), AllocError>
    ensures { OnOk result (text.new.items ≡ text.old.items ++ file_word name.now) }
{
    if name == b"-".as_slice() {
        return Ok(());
    }
    text.extend_from_slice(b" ")?;
    push_shell_word(text, name)
}
