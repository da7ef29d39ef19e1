ghost use Rattle.std.specs.Prelude.{◌≡◌, ◌++◌, OnOk};
ghost use Rattle.pf_convert.specs.Conversion.Script.{numbered};
ghost use Rattle.pf_convert.specs.Fit.Json.{end_json, fits_option, outcome_item, processors_json, tail_json, tasks_json, tried_json, verdict_word};

use crate::conversion::json::{comma, push_option, push_tasks, truth};
use crate::conversion::list_file::ListFile;
use crate::list::listed::Listed;
use crate::list::parts::{Part, push_parts};
use crate::outcome::Outcome;
use crate::terms::Terms;
use pf_scenario::settings::MOST_PROCESSORS;
use std::alloc::AllocError;

/// What is told after the plan.
#[derive(Clone, Copy)]
pub struct Tail {
    /// What plans are made under.
    pub terms: Terms,
    /// The processors, where they are given or a plan needs them.
    pub processors: Option<u64>,
    /// Whether a plan fits.
    pub is_fit: bool,
    /// The work of the tasks in billionths of a processor.
    pub work: u128,
}

/// Adds what comes after the plan.
///
/// # Errors
///
/// Where memory is refused: a front of it was added.
pub fn push_tail(
    text: &mut Vec<u8>,
    file: &ListFile<'_>,
    tail: Tail,
    tasks: &[Listed],
    outcomes: &[Outcome],
) -> Result<(), AllocError>
    ensures { OnOk result (text.new.items ≡ text.old.items ++ tail_json file.now tail.terms tail.processors tasks.now outcomes.now tail.is_fit tail.work) }
{
    push_processors(text, tail.processors)?;
    push_listed(text, tail.terms.switch, tasks)?;
    push_tried(text, tail.terms.processors, outcomes)?;
    push_end(text, file, tail)
}

/// Adds the processors.
fn push_processors(text: &mut Vec<u8>, processors: Option<u64>) -> Result<(), AllocError>
    ensures { OnOk result (text.new.items ≡ text.old.items ++ processors_json processors) }
{
    push_parts(text, &[Part::Words(",\"processors\":")])?;
    push_option(text, processors)
}

/// Adds what a switch takes, and the tasks of the list.
fn push_listed(text: &mut Vec<u8>, switch: u64, tasks: &[Listed]) -> Result<(), AllocError>
    ensures { OnOk result (text.new.items ≡ text.old.items ++ tasks_json switch tasks.now) }
{
    push_parts(
        text,
        &[
            Part::Words(",\"switch\":"),
            Part::Number(switch),
            Part::Words(",\"tasks\":["),
        ],
    )?;
    push_tasks(text, tasks)
}

/// Adds the quanta that were tried.
fn push_tried(
    text: &mut Vec<u8>,
    processors: Option<u64>,
    outcomes: &[Outcome],
) -> Result<(), AllocError>
    ensures { OnOk result (text.new.items ≡ text.old.items ++ tried_json processors outcomes.now) }
{
    push_parts(text, &[Part::Words("],\"tried\":[")])?;
    push_outcomes(text, processors, outcomes)
}

/// Adds the end of the object.
fn push_end(text: &mut Vec<u8>, file: &ListFile<'_>, tail: Tail) -> Result<(), AllocError>
    ensures { OnOk result (text.new.items ≡ text.old.items ++ end_json file.now tail.is_fit tail.work) }
{
    push_parts(
        text,
        &[
            Part::Words("],\"unit\":\""),
            Part::Words(file.unit.word()),
            Part::Words("\",\"verdict\":\""),
            Part::Words(verdict_word(tail.is_fit)),
            Part::Words("\",\"work\":"),
            Part::Wide(tail.work),
            Part::Words("}\n"),
        ],
    )
}

/// The word of a verdict.
fn verdict_word(fit: bool) -> &'static str
    ensures { result.now ≡ verdict_word fit }
{
    if fit { "fits" } else { "does not fit" }
}

/// Adds what each quantum that was tried needs.
fn push_outcomes(
    text: &mut Vec<u8>,
    processors: Option<u64>,
    outcomes: &[Outcome],
) -> Result<(), AllocError>
    ensures { OnOk result (text.new.items ≡ text.old.items ++ numbered (outcome_item processors) 0 outcomes.now) }
{
    for (place, outcome) in outcomes.iter().enumerate() {
        push_outcome(text, processors, place, *outcome)?;
    }
    Ok(())
}

/// Whether a quantum fits that needs so many processors.
fn fits_option(processors: Option<u64>, needed: Option<u64>) -> bool
    ensures { result ≡ fits_option processors needed }
{
    match needed {
        Some(needed) => needed <= processors.unwrap_or(MOST_PROCESSORS),
        None => false,
    }
}

/// Adds what the quantum at a place needs.
fn push_outcome(
    text: &mut Vec<u8>,
    processors: Option<u64>,
    place: usize,
    outcome: Outcome,
) -> Result<(), AllocError>
    ensures { OnOk result (text.new.items ≡ text.old.items ++ outcome_item processors place outcome) }
{
    push_parts(
        text,
        &[
            Part::Words(comma(place)),
            Part::Words("{\"fits\":"),
            Part::Words(truth(fits_option(processors, outcome.needed))),
            Part::Words(",\"processors\":"),
        ],
    )?;
    push_option(text, outcome.needed)?;
    push_parts(
        text,
        &[
            Part::Words(",\"quantum\":"),
            Part::Number(outcome.quantum),
            Part::Words("}"),
        ],
    )
}
