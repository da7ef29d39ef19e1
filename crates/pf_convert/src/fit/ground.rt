ghost use Rattle.std.specs.Prelude.{◌≡◌, ◌∷◌, ◌++◌, All, OnOk};
ghost use Rattle.pf_convert.specs.Fit.Filled.{filled};
ghost use Rattle.pf_convert.specs.Fit.Lateness.{late_count};
ghost use Rattle.pf_convert.specs.Fit.Notes.{aligned_words, early_words, ground_words, late_from, latest_words, release_words, wait_words};
ghost use Rattle.pf_convert.specs.Fit.Shown.{IsShown, IsShownTask};
ghost use Rattle.pf_convert.specs.Slots.{IsQuantum};

use crate::fit::filled::push_filled;
use crate::fit::lateness::{early_tasks, late_tasks, latest_from};
use crate::fit::notes::tasks_word;
use crate::fit::shown::Shown;
use crate::fit::shown_task::ShownTask;
use crate::list::parts::{Part, push_parts};
use crate::words::arrivals::Arrivals;
use pf_vocabulary::names::unit::Unit;
use std::alloc::{AllocError, Global};

/// Adds what the theorem of a plan that fits rests on.
///
/// # Errors
///
/// Where memory is refused: a front of it was added.
pub fn push_ground(
    alloc: Global,
    text: &mut Vec<u8>,
    shown: &Shown<'_, '_>,
) -> Result<(), AllocError>
    requires { IsShown shown.now }
    ensures { OnOk result (text.new.items ≡ text.old.items ++ filled (ground_words shown.now shown.now.terms.arrivals)) }
{
    let mut words = Vec::new(alloc);
    push_ground_words(&mut words, shown)?;
    push_filled(alloc, text, &words)
}

/// Adds the words of that.
fn push_ground_words(words: &mut Vec<u8>, shown: &Shown<'_, '_>) -> Result<(), AllocError>
    requires { IsShown shown.now }
    ensures { OnOk result (words.new.items ≡ words.old.items ++ ground_words shown.now shown.now.terms.arrivals) }
{
    match shown.terms.arrivals {
        Arrivals::Aligned => push_aligned_words(words, shown),
        Arrivals::Any => words.extend_from_slice(
            b"rests on: jobs of a task come at any time, `every` apart or more, take `work` at most, and are released at the next slot: the plan is delayed until then",
        ),
    }
}

/// Adds the words of that where jobs arrive as slots begin.
fn push_aligned_words(words: &mut Vec<u8>, shown: &Shown<'_, '_>) -> Result<(), AllocError>
    requires { IsShown shown.now }
    ensures { OnOk result (words.new.items ≡ words.old.items ++ aligned_words shown.now) }
{
    let early = early_tasks(shown.tasks);
    let late = late_tasks(shown);
    push_release(words, early)?;
    push_wait(words, shown.file.unit, shown.quantum.length)?;
    push_late(words, shown, late)
}

/// Adds when jobs come and are released, of which so many tasks run some before.
fn push_release(words: &mut Vec<u8>, early: usize) -> Result<(), AllocError>
    ensures { OnOk result (words.new.items ≡ words.old.items ++ release_words early) }
{
    words.extend_from_slice(
        b"rests on: jobs of a task come as a slot begins, `every` apart or more, take `work` at most, and are released then",
    )?;
    push_early(words, early)
}

/// Adds how much longer a job takes from any arrival.
fn push_wait(words: &mut Vec<u8>, unit: Unit, quantum: u64) -> Result<(), AllocError>
    ensures { OnOk result (words.new.items ≡ words.old.items ++ wait_words unit quantum) }
{
    let length = u128::from(quantum);
    push_parts(
        words,
        &[
            Part::Words(". From any arrival a job takes up to "),
            Part::Decimal(unit, length),
            Part::Words(" "),
            Part::Words(unit.word()),
            Part::Words(" more: "),
        ],
    )
}

/// Adds how many tasks run before their release, where some do.
fn push_early(words: &mut Vec<u8>, count: usize) -> Result<(), AllocError>
    ensures { OnOk result (words.new.items ≡ words.old.items ++ early_words count) }
{
    if count == 0 {
        return Ok(());
    }
    push_parts(
        words,
        &[
            Part::Words(" (of "),
            Part::Number(count as u64),
            Part::Words(tasks_word(count)),
            Part::Words(" `early` before)"),
        ],
    )
}

/// Adds that so many tasks may be late where jobs come at any time, and which most.
fn push_late(words: &mut Vec<u8>, shown: &Shown<'_, '_>, count: usize) -> Result<(), AllocError>
    requires { IsShown shown.now }
    ensures { OnOk result (words.new.items ≡ words.old.items ++ late_from shown.now count shown.now.tasks.now) }
{
    match shown.tasks {
        [first, others @ ..] => push_late_of(words, shown, count, *first, others),
        [] => push_parts(words, &[Part::Words("none is late then either")]),
    }
}

/// Adds that so many tasks may be late, and which most of this one and others.
fn push_late_of(
    words: &mut Vec<u8>,
    shown: &Shown<'_, '_>,
    count: usize,
    first: ShownTask<'_>,
    others: &[ShownTask<'_>],
) -> Result<(), AllocError>
    requires quantum { IsQuantum shown.now.quantum }
    requires first { IsShownTask first }
    requires others { All IsShownTask others.now }
    ensures { OnOk result (words.new.items ≡ words.old.items ++ late_from shown.now count (first.entry ∷ others.now)) }
{
    if count == 0 {
        return push_parts(words, &[Part::Words("none is late then either")]);
    }
    push_latest(words, shown, count, latest_from(shown, first, others))
}

/// Adds that so many tasks may be late, and this one most.
fn push_latest(
    words: &mut Vec<u8>,
    shown: &Shown<'_, '_>,
    count: usize,
    latest: ShownTask<'_>,
) -> Result<(), AllocError>
    ensures { OnOk result (words.new.items ≡ words.old.items ++ latest_words shown.now count latest.entry) }
{
    let unit = shown.file.unit;
    let total = shown.tasks.len();
    let due = u128::from(latest.times.due());
    push_parts(
        words,
        &[
            Part::Words("then "),
            Part::Number(count as u64),
            Part::Words(" of "),
            Part::Number(total as u64),
            Part::Words(tasks_word(total)),
            Part::Words(" may be late, "),
            Part::Bytes(latest.name),
            Part::Words(" most, done within "),
            Part::Decimal(unit, shown.any_response(latest)),
            Part::Words(" "),
            Part::Words(unit.word()),
            Part::Words(", due within "),
            Part::Decimal(unit, due),
            Part::Words(" "),
            Part::Words(unit.word()),
            Part::Words("; --arrivals any plans for that"),
        ],
    )
}
