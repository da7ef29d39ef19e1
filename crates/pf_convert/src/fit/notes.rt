ghost use Rattle.std.specs.Prelude.{◌≡◌, ◌++◌, OnOk};
ghost use Rattle.pf_convert.specs.Fit.Filled.{filled};
ghost use Rattle.pf_convert.specs.Fit.Notes.{alone_words, beyond_words, drift_text, drift_words, exactness_words, fail_words, least_processors_words, limits_words, meaning_words, most_switch_words, switch_limit, tasks_word, theorem_words};

use crate::fit::exactness::Exactness;
use crate::fit::filled::push_filled;
use crate::fit::headline::push_spaced;
use crate::fit::lateness::{drifting_tasks, first_drifting};
use crate::fit::shown::Shown;
use crate::fit::shown_task::ShownTask;
use crate::list::parts::{Part, push_parts};
use crate::words::arrivals::Arrivals;
use pf_vocabulary::names::unit::Unit;
use std::alloc::{AllocError, Global};

/// The word for so many tasks.
pub fn tasks_word(count: usize) -> &'static str
    ensures { result.now ≡ tasks_word count }
{
    if count == 1 { " task" } else { " tasks" }
}

/// Whether margins are exact, and why they are not.
fn exactness_words(exactness: Exactness) -> &'static str
    ensures { result.now ≡ exactness_words exactness }
{
    match exactness {
        Exactness::Exact => "exact: beyond them no schedule in quanta of ",
        Exactness::AnyArrivals => {
            "safe, not exact: up to two quanta of each time are kept for arrivals"
        }
        Exactness::EarlyDeadlines => "safe, not exact: jobs count as if they came each deadline",
        Exactness::CommonBase => "safe, not exact: periods are rounded down to a common base",
        Exactness::WholeQuanta => "safe, not exact: times are rounded down to whole quanta",
    }
}

/// What the margins are of, where the plan fits, or where it does not.
fn alone_words(fit: bool) -> &'static str
    ensures { result.now ≡ alone_words fit }
{
    if fit {
        "for each alone"
    } else {
        "what would do for each alone"
    }
}

/// Adds what the margins of tasks are.
///
/// # Errors
///
/// Where memory is refused: a front of it was added.
pub fn push_meaning(
    alloc: Global,
    text: &mut Vec<u8>,
    shown: &Shown<'_, '_>,
) -> Result<(), AllocError>
    ensures { OnOk result (text.new.items ≡ text.old.items ++ filled (meaning_words shown.now)) }
{
    let mut words = Vec::new(alloc);
    push_meaning_words(&mut words, shown)?;
    push_filled(alloc, text, &words)
}

/// Adds the words of that.
fn push_meaning_words(words: &mut Vec<u8>, shown: &Shown<'_, '_>) -> Result<(), AllocError>
    ensures { OnOk result (words.new.items ≡ words.old.items ++ meaning_words shown.now) }
{
    push_parts(
        words,
        &[
            Part::Words("at most, at least: "),
            Part::Words(alone_words(shown.is_fit())),
            Part::Words(", the others as they are; "),
            Part::Words(exactness_words(shown.exactness)),
        ],
    )?;
    push_beyond(
        words,
        shown.file.unit,
        shown.quantum.length,
        shown.exactness,
    )
}

/// Adds what exact margins are exact for.
fn push_beyond(
    words: &mut Vec<u8>,
    unit: Unit,
    quantum: u64,
    exactness: Exactness,
) -> Result<(), AllocError>
    ensures { OnOk result (words.new.items ≡ words.old.items ++ beyond_words unit quantum exactness) }
{
    let length = u128::from(quantum);
    match exactness {
        Exactness::Exact => push_parts(
            words,
            &[
                Part::Decimal(unit, length),
                Part::Words(" "),
                Part::Words(unit.word()),
                Part::Words(" serves the list"),
            ],
        ),
        Exactness::AnyArrivals
        | Exactness::EarlyDeadlines
        | Exactness::CommonBase
        | Exactness::WholeQuanta => Ok(()),
    }
}

/// Adds the margins of all tasks together.
///
/// # Errors
///
/// Where memory is refused: a front of it was added.
pub fn push_limits(
    alloc: Global,
    text: &mut Vec<u8>,
    shown: &Shown<'_, '_>,
) -> Result<(), AllocError>
    ensures { OnOk result (text.new.items ≡ text.old.items ++ filled (limits_words shown.now)) }
{
    let mut words = Vec::new(alloc);
    push_limits_words(&mut words, shown)?;
    push_filled(alloc, text, &words)
}

/// Adds the words of that.
fn push_limits_words(words: &mut Vec<u8>, shown: &Shown<'_, '_>) -> Result<(), AllocError>
    ensures { OnOk result (words.new.items ≡ words.old.items ++ limits_words shown.now) }
{
    let margins = shown.margins;
    push_most_switch(words, shown.file.unit, margins.switch)?;
    push_least_processors(words, shown.processors, margins.processors, margins.fail)
}

/// Adds how long a switch may take.
fn push_most_switch(words: &mut Vec<u8>, unit: Unit, switch: Option<u64>) -> Result<(), AllocError>
    ensures { OnOk result (words.new.items ≡ words.old.items ++ most_switch_words unit switch) }
{
    words.extend_from_slice(b"switch at most ")?;
    push_switch_limit(words, unit, switch)
}

/// Adds how many processors are needed, and may fail.
fn push_least_processors(
    words: &mut Vec<u8>,
    processors: u64,
    needed: u64,
    fail: Option<u64>,
) -> Result<(), AllocError>
    ensures { OnOk result (words.new.items ≡ words.old.items ++ least_processors_words processors needed fail) }
{
    push_parts(
        words,
        &[Part::Words("; processors at least "), Part::Number(needed)],
    )?;
    push_fail(words, processors, fail)
}

/// Adds the longest switch, `-` where there is none.
fn push_switch_limit(words: &mut Vec<u8>, unit: Unit, switch: Option<u64>) -> Result<(), AllocError>
    ensures { OnOk result (words.new.items ≡ words.old.items ++ switch_limit unit switch) }
{
    match switch {
        Some(switch) => push_spaced(words, unit, u128::from(switch)),
        None => words.extend_from_slice(b"-"),
    }
}

/// Adds how many processors may fail, where there are enough.
fn push_fail(words: &mut Vec<u8>, processors: u64, fail: Option<u64>) -> Result<(), AllocError>
    ensures { OnOk result (words.new.items ≡ words.old.items ++ fail_words processors fail) }
{
    match fail {
        Some(fail) => push_parts(
            words,
            &[
                Part::Words(", so "),
                Part::Number(fail),
                Part::Words(" of "),
                Part::Number(processors),
                Part::Words(" may fail"),
            ],
        ),
        None => Ok(()),
    }
}

/// What is proved of a plan that fits.
fn theorem_words(arrivals: Arrivals) -> &'static str
    ensures { result.now ≡ theorem_words arrivals }
{
    match arrivals {
        Arrivals::Aligned => {
            "by theorem: each job is done within the time shown, counted from its release, whatever else comes or is late"
        }
        Arrivals::Any => {
            "by theorem: each job is done within the time shown, counted from its arrival, whatever else comes or is late"
        }
    }
}

/// Adds what is proved of a plan that fits.
///
/// # Errors
///
/// Where memory is refused: a front of it was added.
pub fn push_theorem(alloc: Global, text: &mut Vec<u8>, arrivals: Arrivals) -> Result<(), AllocError>
    ensures { OnOk result (text.new.items ≡ text.old.items ++ filled (theorem_words arrivals)) }
{
    push_filled(alloc, text, theorem_words(arrivals).as_bytes())
}

/// Adds how a table of the plan drifts from the jobs, where it does.
///
/// # Errors
///
/// Where memory is refused: a front of it was added.
pub fn push_drift(
    alloc: Global,
    text: &mut Vec<u8>,
    shown: &Shown<'_, '_>,
) -> Result<(), AllocError>
    ensures { OnOk result (text.new.items ≡ text.old.items ++ drift_text shown.now) }
{
    match first_drifting(shown.quantum.length, shown.tasks) {
        Some(first) => {
            let mut words = Vec::new(alloc);
            push_drift_words(&mut words, shown, first)?;
            push_filled(alloc, text, &words)
        }
        None => Ok(()),
    }
}

/// Adds the words of that, where this task is the first.
fn push_drift_words(
    words: &mut Vec<u8>,
    shown: &Shown<'_, '_>,
    first: ShownTask<'_>,
) -> Result<(), AllocError>
    ensures { OnOk result (words.new.items ≡ words.old.items ++ drift_words shown.now first.entry) }
{
    let unit = shown.file.unit;
    let quantum = shown.quantum.length;
    let total = shown.tasks.len();
    let window = u128::from(first.slots.period) * u128::from(quantum);
    let every = u128::from(first.times.every);
    push_parts(
        words,
        &[
            Part::Words("as a table (run -f c) it drifts from the jobs of "),
            Part::Number(drifting_tasks(quantum, shown.tasks) as u64),
            Part::Words(" of "),
            Part::Number(total as u64),
            Part::Words(tasks_word(total)),
            Part::Words(", of "),
            Part::Bytes(first.name),
            Part::Words(" first: windows each "),
            Part::Decimal(unit, window),
            Part::Words(" "),
            Part::Words(unit.word()),
            Part::Words(", jobs each "),
            Part::Decimal(unit, every),
            Part::Words(" "),
            Part::Words(unit.word()),
        ],
    )
}
