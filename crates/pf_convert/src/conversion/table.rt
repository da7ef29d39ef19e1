ghost use Rattle.std.specs.Prelude.{◌≡◌, ◌≤◌, ◌<◌, ◌/◌, ◌^◌, ◌++◌, OnOk};
ghost use Rattle.pf_text.specs.Columns.Decimals.{up};
ghost use Rattle.pf_convert.specs.Conversion.Planned.{HoldsPlan, HoldsTasks};
ghost use Rattle.pf_convert.specs.Conversion.Script.{numbered};
ghost use Rattle.pf_convert.specs.Conversion.Series.{HoldAll};
ghost use Rattle.pf_convert.specs.Conversion.Table.{best_word, fits_word, no_plan_line, periods_word, plan_line, quantum_line, series_text};

use crate::conversion::planned::Planned;
use crate::conversion::report::PLACES;
use crate::list::parts::{Part, push_parts};
use crate::plan::Plan;
use crate::words::arrivals::Arrivals;
use crate::work::BILLION;
use pf_scenario::settings::MOST_PROCESSORS;
use pf_text::columns::decimals::push_up;
use pf_vocabulary::names::unit::Unit;
use std::alloc::AllocError;

/// What the lines of several quanta are told by.
#[derive(Clone, Copy)]
pub struct Series {
    /// The unit of times.
    pub unit: Unit,
    /// When the jobs of a task arrive.
    pub arrivals: Arrivals,
    /// The processors, where they are given.
    pub processors: Option<u64>,
    /// The work of the tasks, in billionths of a processor.
    pub work: u128,
    /// The place of the best quantum, where one fits.
    pub best: Option<usize>,
}

/// Adds the table of what several quanta give.
///
/// # Errors
///
/// Where memory is refused: a front of it was added.
#[tactic(auto, unfolding(crate::specs::Conversion::Table::series_text))]
pub fn push_series(text: &mut Vec<u8>, series: Series, all: &[Planned]) -> Result<(), AllocError>
    requires { HoldAll all.now }
    ensures { OnOk result (text.new.items ≡ text.old.items ++ series_text series all.now) }
{
    text.extend_from_slice(b"quantum,base,periods,work,load,utilization,processors,fits,best\n")?;
    push_quanta(text, series, all)
}

/// Adds a line for each quantum.
fn push_quanta(text: &mut Vec<u8>, series: Series, all: &[Planned]) -> Result<(), AllocError>
    requires { HoldAll all.now }
    ensures { OnOk result (text.new.items ≡ text.old.items ++ numbered (quantum_line series) 0 all.now) }
{
    for (place, planned) in all.iter().enumerate() {
        push_quantum(text, series, place, planned)?;
    }
    Ok(())
}

/// Adds the line of the quantum at a place.
fn push_quantum(
    text: &mut Vec<u8>,
    series: Series,
    place: usize,
    planned: &Planned,
) -> Result<(), AllocError>
    requires { HoldsPlan planned.now.plan }
    ensures { OnOk result (text.new.items ≡ text.old.items ++ quantum_line series place planned.now) }
{
    let quantum = planned.quantum.length;
    let needed = planned.needed.unwrap_or(0);
    match &planned.plan {
        Some(plan) => push_plan(text, series, place, quantum, needed, plan),
        None => push_no_plan(text, series, quantum),
    }
}

/// Adds the line of a quantum without a plan.
fn push_no_plan(text: &mut Vec<u8>, series: Series, quantum: u64) -> Result<(), AllocError>
    ensures { OnOk result (text.new.items ≡ text.old.items ++ no_plan_line series quantum) }
{
    let length = u128::from(quantum);
    push_parts(
        text,
        &[Part::Decimal(series.unit, length), Part::Words(",,,")],
    )?;
    push_up(text, series.work, BILLION, PLACES)?;
    push_parts(text, &[Part::Words(",,,,no,\n")])
}

/// Adds the line of a quantum with a plan that needs so many processors.
fn push_plan(
    text: &mut Vec<u8>,
    series: Series,
    place: usize,
    quantum: u64,
    needed: u64,
    plan: &Plan,
) -> Result<(), AllocError>
    requires { HoldsTasks plan.now }
    ensures { OnOk result (text.new.items ≡ text.old.items ++ plan_line series place quantum needed plan.now) }
{
    let length = u128::from(quantum);
    push_parts(
        text,
        &[
            Part::Decimal(series.unit, length),
            Part::Words(","),
            Part::Number(plan.base),
            Part::Words(periods_word(plan.exact)),
        ],
    )?;
    push_up(text, series.work, BILLION, PLACES)?;
    push_parts(
        text,
        &[Part::Words(","), Part::Number(plan.load), Part::Words(",")],
    )?;
    push_up(text, u128::from(plan.load), u128::from(plan.base), PLACES)?;
    push_parts(
        text,
        &[
            Part::Words(","),
            Part::Number(needed),
            Part::Words(fits_word(series.processors, needed)),
            Part::Words(best_word(series.best, place)),
        ],
    )
}

/// Whether the periods are those of the tasks, between commas.
fn periods_word(exact: bool) -> &'static str
    ensures { result.now ≡ periods_word exact }
{
    if exact { ",exact," } else { ",rounded," }
}

/// Whether a plan fits that needs so many processors, between commas.
fn fits_word(processors: Option<u64>, needed: u64) -> &'static str
    ensures { result.now ≡ fits_word processors needed }
{
    if needed <= processors.unwrap_or(MOST_PROCESSORS) {
        ",yes,"
    } else {
        ",no,"
    }
}

/// Whether the quantum at a place is the best, and the end of its line.
fn best_word(best: Option<usize>, place: usize) -> &'static str
    ensures { result.now ≡ best_word best place }
{
    match best {
        Some(other) if other == place => "best\n",
        _ => "\n",
    }
}
