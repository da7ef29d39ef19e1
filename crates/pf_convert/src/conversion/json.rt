ghost use Rattle.std.specs.Prelude.{◌≡◌, ◌++◌, All, OnOk};
ghost use Rattle.pf_convert.specs.Slots.{IsSlotted};
ghost use Rattle.pf_convert.specs.Conversion.Json.{arrivals_json, arrivals_word, best_json, comma, fault_item, fits_word, json_head, json_text, json_tail, no_plan_json, option_json, plan_head, plan_json, processors_json, quantum_item, slots_item, task_item, truth};
ghost use Rattle.pf_convert.specs.Conversion.Planned.{HoldsPlan, HoldsTasks};
ghost use Rattle.pf_convert.specs.Conversion.Script.{numbered};
ghost use Rattle.pf_convert.specs.Conversion.Series.{HoldAll};

use crate::conversion::list_file::ListFile;
use crate::conversion::plan_faults::{fault_place, push_place, push_words};
use crate::conversion::planned::Planned;
use crate::conversion::table::Series;
use crate::list::listed::Listed;
use crate::list::parts::{Part, push_parts};
use crate::plan::Plan;
use crate::plan_fault::PlanFault;
use crate::slotted::Slotted;
use crate::words::arrivals::Arrivals;
use pf_scenario::settings::MOST_PROCESSORS;
use std::alloc::AllocError;

/// Adds what several quanta give these tasks, of which a switch takes so much, as an object of JSON on one line. Its numbers
/// may have 128 bits, and no text in it needs escaping.
///
/// # Errors
///
/// Where memory is refused: a front of it was added.
#[tactic(auto, unfolding(crate::specs::Conversion::Json::json_text))]
pub fn push_json(
    text: &mut Vec<u8>,
    file: &ListFile<'_>,
    series: Series,
    switch: u64,
    tasks: &[Listed],
    all: &[Planned],
) -> Result<(), AllocError>
    requires { HoldAll all.now }
    ensures { OnOk result (text.new.items ≡ text.old.items ++ json_text file.now series switch tasks.now all.now) }
{
    push_head(text, series)?;
    push_quanta(text, file, series, all)?;
    push_parts(
        text,
        &[
            Part::Words("],\"switch\":"),
            Part::Number(switch),
            Part::Words(",\"tasks\":["),
        ],
    )?;
    push_tasks(text, tasks)?;
    push_tail(text, series)
}

/// Adds what comes before the quanta.
#[tactic(auto, unfolding(crate::specs::Conversion::Json::json_head))]
fn push_head(text: &mut Vec<u8>, series: Series) -> Result<(), AllocError>
    ensures { OnOk result (text.new.items ≡ text.old.items ++ json_head series) }
{
    push_arrivals(text, series.arrivals)?;
    push_best(text, series.best)?;
    push_processors(text, series.processors)
}

/// Adds when jobs arrive, and what comes before the best.
#[tactic(auto, unfolding(crate::specs::Conversion::Json::arrivals_json))]
fn push_arrivals(text: &mut Vec<u8>, arrivals: Arrivals) -> Result<(), AllocError>
    ensures { OnOk result (text.new.items ≡ text.old.items ++ arrivals_json arrivals) }
{
    push_parts(
        text,
        &[
            Part::Words("{\"arrivals\":\""),
            Part::Words(arrivals_word(arrivals)),
            Part::Words("\",\"best\":"),
        ],
    )
}

/// Adds the place of the best, and what comes after it.
#[tactic(auto, unfolding(crate::specs::Conversion::Json::best_json))]
fn push_best(text: &mut Vec<u8>, best: Option<usize>) -> Result<(), AllocError>
    ensures { OnOk result (text.new.items ≡ text.old.items ++ best_json best) }
{
    push_option(text, best.map(|place| place as u64))?;
    push_parts(text, &[Part::Words(",\"processors\":")])
}

/// Adds the processors, and what comes before the quanta.
#[tactic(auto, unfolding(crate::specs::Conversion::Json::processors_json))]
fn push_processors(text: &mut Vec<u8>, processors: Option<u64>) -> Result<(), AllocError>
    ensures { OnOk result (text.new.items ≡ text.old.items ++ processors_json processors) }
{
    push_option(text, processors)?;
    push_parts(text, &[Part::Words(",\"quanta\":[")])
}

/// The word that asks for arrivals.
pub fn arrivals_word(arrivals: Arrivals) -> &'static str
    ensures { result.now ≡ arrivals_word arrivals }
{
    match arrivals {
        Arrivals::Aligned => "aligned",
        Arrivals::Any => "any",
    }
}

/// Adds what comes after the tasks.
fn push_tail(text: &mut Vec<u8>, series: Series) -> Result<(), AllocError>
    ensures { OnOk result (text.new.items ≡ text.old.items ++ json_tail series) }
{
    push_parts(
        text,
        &[
            Part::Words("],\"unit\":\""),
            Part::Words(series.unit.word()),
            Part::Words("\",\"work\":"),
            Part::Wide(series.work),
            Part::Words("}\n"),
        ],
    )
}

/// Adds a number, or null where there is none.
pub fn push_option(text: &mut Vec<u8>, number: Option<u64>) -> Result<(), AllocError>
    ensures { OnOk result (text.new.items ≡ text.old.items ++ option_json number) }
{
    match number {
        Some(number) => push_parts(text, &[Part::Number(number)]),
        None => push_parts(text, &[Part::Words("null")]),
    }
}

/// Adds the quanta.
fn push_quanta(
    text: &mut Vec<u8>,
    file: &ListFile<'_>,
    series: Series,
    all: &[Planned],
) -> Result<(), AllocError>
    requires { HoldAll all.now }
    ensures { OnOk result (text.new.items ≡ text.old.items ++ numbered (quantum_item file.now series) 0 all.now) }
{
    for (place, planned) in all.iter().enumerate() {
        push_quantum(text, file, series, place, planned)?;
    }
    Ok(())
}

/// What stands before the element of a list at a place.
pub fn comma(place: usize) -> &'static str
    ensures { result.now ≡ comma place }
{
    if place == 0 { "" } else { "," }
}

/// Adds the quantum at a place.
fn push_quantum(
    text: &mut Vec<u8>,
    file: &ListFile<'_>,
    series: Series,
    place: usize,
    planned: &Planned,
) -> Result<(), AllocError>
    requires { HoldsPlan planned.now.plan }
    ensures { OnOk result (text.new.items ≡ text.old.items ++ quantum_item file.now series place planned.now) }
{
    let quantum = planned.quantum.length;
    let needed = planned.needed.unwrap_or(0);
    push_parts(text, &[Part::Words(comma(place))])?;
    match &planned.plan {
        Some(plan) => push_plan(text, series.processors, quantum, needed, plan),
        None => push_no_plan(text, file, series.arrivals, quantum, &planned.faults),
    }
}

/// Adds a quantum with a plan.
#[tactic(auto, unfolding(crate::specs::Conversion::Json::plan_json))]
fn push_plan(
    text: &mut Vec<u8>,
    processors: Option<u64>,
    quantum: u64,
    needed: u64,
    plan: &Plan,
) -> Result<(), AllocError>
    requires { HoldsTasks plan.now }
    ensures { OnOk result (text.new.items ≡ text.old.items ++ plan_json processors quantum needed plan.now) }
{
    push_plan_head(text, processors, quantum, needed, plan)?;
    push_slots(text, quantum, &plan.tasks)?;
    push_parts(text, &[Part::Words("]}")])
}

/// Adds what comes before the tasks of a plan.
pub fn push_plan_head(
    text: &mut Vec<u8>,
    processors: Option<u64>,
    quantum: u64,
    needed: u64,
    plan: &Plan,
) -> Result<(), AllocError>
    ensures { OnOk result (text.new.items ≡ text.old.items ++ plan_head processors quantum needed plan.now) }
{
    push_parts(
        text,
        &[
            Part::Words("{\"base\":"),
            Part::Number(plan.base),
            Part::Words(",\"exact\":"),
            Part::Words(truth(plan.exact)),
            Part::Words(",\"faults\":[],\"fits\":"),
            Part::Words(fits_word(processors, needed)),
            Part::Words(",\"load\":"),
            Part::Number(plan.load),
            Part::Words(",\"processors\":"),
            Part::Number(needed),
            Part::Words(",\"quantum\":"),
            Part::Number(quantum),
            Part::Words(",\"tasks\":["),
        ],
    )
}

/// The word of a truth.
pub fn truth(is: bool) -> &'static str
    ensures { result.now ≡ truth is }
{
    if is { "true" } else { "false" }
}

/// Whether a plan fits that needs so many processors.
pub fn fits_word(processors: Option<u64>, needed: u64) -> &'static str
    ensures { result.now ≡ fits_word processors needed }
{
    if needed <= processors.unwrap_or(MOST_PROCESSORS) {
        "true"
    } else {
        "false"
    }
}

/// Adds a quantum without a plan.
#[tactic(auto, unfolding(crate::specs::Conversion::Json::no_plan_json))]
pub fn push_no_plan(
    text: &mut Vec<u8>,
    file: &ListFile<'_>,
    arrivals: Arrivals,
    quantum: u64,
    faults: &[PlanFault],
) -> Result<(), AllocError>
    ensures { OnOk result (text.new.items ≡ text.old.items ++ no_plan_json file.now arrivals quantum faults.now) }
{
    push_parts(
        text,
        &[Part::Words("{\"base\":null,\"exact\":null,\"faults\":[")],
    )?;
    push_faults(text, file, arrivals, quantum, faults)?;
    push_parts(
        text,
        &[
            Part::Words("],\"fits\":false,\"load\":null,\"processors\":null,\"quantum\":"),
            Part::Number(quantum),
            Part::Words(",\"tasks\":[]}"),
        ],
    )
}

/// Adds faults.
fn push_faults(
    text: &mut Vec<u8>,
    file: &ListFile<'_>,
    arrivals: Arrivals,
    quantum: u64,
    faults: &[PlanFault],
) -> Result<(), AllocError>
    ensures { OnOk result (text.new.items ≡ text.old.items ++ numbered (fault_item file.now arrivals quantum) 0 faults.now) }
{
    for (place, fault) in faults.iter().enumerate() {
        push_fault(text, file, arrivals, quantum, place, *fault)?;
    }
    Ok(())
}

/// Adds the fault at a place.
fn push_fault(
    text: &mut Vec<u8>,
    file: &ListFile<'_>,
    arrivals: Arrivals,
    quantum: u64,
    place: usize,
    fault: PlanFault,
) -> Result<(), AllocError>
    ensures { OnOk result (text.new.items ≡ text.old.items ++ fault_item file.now arrivals quantum place fault) }
{
    push_parts(text, &[Part::Words(comma(place)), Part::Words("\"")])?;
    push_place(text, file.text, fault_place(file.heading, fault))?;
    push_words(text, file.unit, arrivals, quantum, fault)?;
    push_parts(text, &[Part::Words("\"")])
}

/// Adds tasks in slots.
fn push_slots(text: &mut Vec<u8>, quantum: u64, tasks: &[Slotted]) -> Result<(), AllocError>
    requires { All IsSlotted tasks.now }
    ensures { OnOk result (text.new.items ≡ text.old.items ++ numbered (slots_item quantum) 0 tasks.now) }
{
    for (place, task) in tasks.iter().enumerate() {
        push_slotted(text, quantum, place, *task)?;
    }
    Ok(())
}

/// Adds the task in slots at a place.
fn push_slotted(
    text: &mut Vec<u8>,
    quantum: u64,
    place: usize,
    task: Slotted,
) -> Result<(), AllocError>
    requires { IsSlotted task }
    ensures { OnOk result (text.new.items ≡ text.old.items ++ slots_item quantum place task) }
{
    let period = u128::from(task.period);
    let length = u128::from(quantum);
    push_parts(
        text,
        &[
            Part::Words(comma(place)),
            Part::Words("{\"arrival\":"),
            Part::Wide((period + 1) * length),
            Part::Words(",\"cost\":"),
            Part::Number(task.cost),
            Part::Words(",\"early\":"),
            Part::Number(task.early),
            Part::Words(",\"join\":"),
            Part::Number(task.join),
            Part::Words(",\"period\":"),
            Part::Number(task.period),
            Part::Words(",\"response\":"),
            Part::Wide(period * length),
            Part::Words("}"),
        ],
    )
}

/// Adds tasks in time.
pub fn push_tasks(text: &mut Vec<u8>, tasks: &[Listed]) -> Result<(), AllocError>
    ensures { OnOk result (text.new.items ≡ text.old.items ++ numbered task_item 0 tasks.now) }
{
    for (place, task) in tasks.iter().enumerate() {
        push_task(text, place, task)?;
    }
    Ok(())
}

/// Adds the task in time at a place.
fn push_task(text: &mut Vec<u8>, place: usize, task: &Listed) -> Result<(), AllocError>
    ensures { OnOk result (text.new.items ≡ text.old.items ++ task_item place task.now) }
{
    push_parts(
        text,
        &[Part::Words(comma(place)), Part::Words("{\"deadline\":")],
    )?;
    push_option(text, task.times.deadline)?;
    push_parts(
        text,
        &[
            Part::Words(",\"early\":"),
            Part::Number(task.times.early),
            Part::Words(",\"every\":"),
            Part::Number(task.times.every),
            Part::Words(",\"first\":"),
            Part::Number(task.times.first),
            Part::Words(",\"name\":\""),
            Part::Bytes(task.name.as_bytes()),
            Part::Words("\",\"work\":"),
            Part::Number(task.times.work),
            Part::Words("}"),
        ],
    )
}
