ghost use Rattle.std.specs.Prelude.{◌≡◌, ◌++◌, OnOk};
ghost use Rattle.pf_convert.specs.Conversion.Answers.{choice_words, found_line, quanta_word, tried_line, tried_text, tried_words};

use crate::conversion::choice::Choice;
use crate::list::parts::{Part, push_parts};
use pf_scenario::settings::MOST_PROCESSORS;
use pf_vocabulary::names::unit::Unit;
use std::alloc::AllocError;

/// Adds the line of the quantum that was found; nothing where it was given.
///
/// # Errors
///
/// Where memory is refused: a front of it was added.
pub fn push_tried_line(
    text: &mut Vec<u8>,
    unit: Unit,
    quantum: u64,
    choice: Choice,
) -> Result<(), AllocError>
    ensures { OnOk result (text.new.items ≡ text.old.items ++ tried_line unit quantum choice.processors choice.needed choice.tried) }
{
    match choice.tried {
        Some(count) => push_found(text, unit, quantum, choice, count),
        None => Ok(()),
    }
}

/// Adds the line of the quantum that was found among so many.
fn push_found(
    text: &mut Vec<u8>,
    unit: Unit,
    quantum: u64,
    choice: Choice,
    count: usize,
) -> Result<(), AllocError>
    ensures { OnOk result (text.new.items ≡ text.old.items ++ found_line unit quantum choice.processors choice.needed count) }
{
    let length = u128::from(quantum);
    push_parts(
        text,
        &[
            Part::Words("quantum "),
            Part::Time(unit, length),
            Part::Words(": "),
        ],
    )?;
    push_tried(text, choice.processors, choice.needed, count)?;
    text.extend_from_slice(b"\n")
}

/// Adds of how many quanta that were tried one is shown, and why, whose plan needs so many processors.
///
/// # Errors
///
/// Where memory is refused: a front of it was added.
pub fn push_tried(
    text: &mut Vec<u8>,
    processors: Option<u64>,
    needed: u64,
    count: usize,
) -> Result<(), AllocError>
    ensures { OnOk result (text.new.items ≡ text.old.items ++ tried_text processors needed count) }
{
    push_parts(
        text,
        &[
            Part::Words("of "),
            Part::Number(count as u64),
            Part::Words(quanta_word(count)),
            Part::Words(tried_words(processors, needed)),
        ],
    )
}

/// The word for so many quanta.
fn quanta_word(count: usize) -> &'static str
    ensures { result.now ≡ quanta_word count }
{
    if count == 1 { " quantum" } else { " quanta" }
}

/// Why a quantum is shown whose plan needs so many processors.
fn tried_words(processors: Option<u64>, needed: u64) -> &'static str
    ensures { result.now ≡ tried_words processors needed }
{
    if needed > processors.unwrap_or(MOST_PROCESSORS) {
        return " tried none fits; this is the longest with the fewest processors";
    }
    choice_words(processors)
}

/// Why the best quantum is shown.
fn choice_words(processors: Option<u64>) -> &'static str
    ensures { result.now ≡ choice_words processors }
{
    match processors {
        Some(_) => " tried the longest that fits",
        None => " tried the longest with the fewest processors",
    }
}
