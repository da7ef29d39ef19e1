ghost use Rattle.std.specs.Prelude.{◌≡◌, ◌++◌, OnOk, Some, None, option_map};
ghost use Rattle.pf_convert.specs.Conversion.Json.{option_json};
ghost use Rattle.pf_convert.specs.Conversion.Script.{numbered};
ghost use Rattle.pf_convert.specs.Fit.Json.{arrivals_json, least_json, margins_json, most_json, no_shown_json, plan_json, shown_item, shown_item_end, shown_item_front, shown_json, shown_plan_json, shown_tail, unplanned_json};

use crate::conversion::json::{
    arrivals_word, comma, push_no_plan, push_option, push_plan_head, truth,
};
use crate::conversion::list_file::ListFile;
use crate::conversion::planned::Planned;
use crate::fit::json_tail::{Tail, push_tail};
use crate::fit::shown::Shown;
use crate::fit::shown_task::ShownTask;
use crate::list::listed::Listed;
use crate::list::parts::{Part, push_parts};
use crate::outcome::Outcome;
use crate::terms::Terms;
use std::alloc::AllocError;

/// Adds the object of a plan and its margins, of tasks that work so many billionths of a processor.
///
/// # Errors
///
/// Where memory is refused: a front of it was added.
#[tactic(auto, unfolding(crate::specs::Fit::Json::shown_json))]
pub fn push_shown_json(
    text: &mut Vec<u8>,
    shown: &Shown<'_, '_>,
    outcomes: &[Outcome],
    work: u128,
) -> Result<(), AllocError>
    ensures { OnOk result (text.new.items ≡ text.old.items ++ shown_json shown.now outcomes.now work) }
{
    push_arrivals(text, shown.terms)?;
    push_margins(text, shown)?;
    push_plan(text, shown)?;
    push_shown_tail(text, shown, outcomes, work)
}

/// Adds what comes after its plan.
fn push_shown_tail(
    text: &mut Vec<u8>,
    shown: &Shown<'_, '_>,
    outcomes: &[Outcome],
    work: u128,
) -> Result<(), AllocError>
    ensures { OnOk result (text.new.items ≡ text.old.items ++ shown_tail shown.now outcomes.now work) }
{
    let tail = Tail {
        terms: shown.terms,
        processors: Some(shown.processors),
        is_fit: shown.is_fit(),
        work,
    };
    push_tail(text, shown.file, tail, shown.listed, outcomes)
}

/// Adds the object of a list where there is no plan: of the quantum that is shown, if there is one.
///
/// # Errors
///
/// Where memory is refused: a front of it was added.
#[tactic(auto, unfolding(crate::specs::Fit::Json::no_shown_json))]
pub fn push_no_shown_json(
    text: &mut Vec<u8>,
    file: &ListFile<'_>,
    terms: Terms,
    planned: Option<&Planned>,
    tasks: &[Listed],
    outcomes: &[Outcome],
    work: u128,
) -> Result<(), AllocError>
    ensures { OnOk result (text.new.items ≡ text.old.items ++ no_shown_json file.now terms (option_map (λ p. p.now) planned.entry) tasks.now outcomes.now work) }
{
    let tail = Tail {
        terms,
        processors: terms.processors,
        is_fit: false,
        work,
    };
    push_arrivals(text, terms)?;
    push_parts(text, &[Part::Words("null,\"plan\":")])?;
    push_unplanned(text, file, terms, planned)?;
    push_tail(text, file, tail, tasks, outcomes)
}

/// Adds the front of the object.
fn push_arrivals(text: &mut Vec<u8>, terms: Terms) -> Result<(), AllocError>
    ensures { OnOk result (text.new.items ≡ text.old.items ++ arrivals_json terms) }
{
    push_parts(
        text,
        &[
            Part::Words("{\"arrivals\":\""),
            Part::Words(arrivals_word(terms.arrivals)),
            Part::Words("\",\"margins\":"),
        ],
    )
}

/// Adds the margins of all tasks together.
fn push_margins(text: &mut Vec<u8>, shown: &Shown<'_, '_>) -> Result<(), AllocError>
    ensures { OnOk result (text.new.items ≡ text.old.items ++ margins_json shown.now) }
{
    push_parts(
        text,
        &[
            Part::Words("{\"exact\":"),
            Part::Words(truth(shown.exactness.is_exact())),
            Part::Words(",\"fail\":"),
        ],
    )?;
    push_option(text, shown.margins.fail)?;
    push_parts(
        text,
        &[
            Part::Words(",\"processors\":"),
            Part::Number(shown.margins.processors),
            Part::Words(",\"switch\":"),
        ],
    )?;
    push_option(text, shown.margins.switch)?;
    push_parts(text, &[Part::Words("}")])
}

/// Adds the plan with its key.
fn push_plan(text: &mut Vec<u8>, shown: &Shown<'_, '_>) -> Result<(), AllocError>
    ensures { OnOk result (text.new.items ≡ text.old.items ++ plan_json shown.now) }
{
    push_parts(text, &[Part::Words(",\"plan\":")])?;
    push_shown_plan(text, shown)
}

/// Adds the plan.
fn push_shown_plan(text: &mut Vec<u8>, shown: &Shown<'_, '_>) -> Result<(), AllocError>
    ensures { OnOk result (text.new.items ≡ text.old.items ++ shown_plan_json shown.now) }
{
    let quantum = shown.quantum.length;
    let needed = shown.margins.processors;
    push_plan_head(text, shown.terms.processors, quantum, needed, shown.plan)?;
    push_shown_tasks(text, shown)?;
    push_parts(text, &[Part::Words("]}")])
}

/// Adds its tasks.
fn push_shown_tasks(text: &mut Vec<u8>, shown: &Shown<'_, '_>) -> Result<(), AllocError>
    ensures { OnOk result (text.new.items ≡ text.old.items ++ numbered (shown_item shown.now) 0 shown.now.tasks.now) }
{
    for (place, task) in shown.tasks.iter().enumerate() {
        push_shown_task(text, shown, place, *task)?;
    }
    Ok(())
}

/// Adds the task in slots at a place, with its margins.
fn push_shown_task(
    text: &mut Vec<u8>,
    shown: &Shown<'_, '_>,
    place: usize,
    task: ShownTask<'_>,
) -> Result<(), AllocError>
    ensures { OnOk result (text.new.items ≡ text.old.items ++ shown_item shown.now place task.entry) }
{
    push_task_front(text, shown, place, task)?;
    push_least(text, shown, task)?;
    push_most(text, task.margin.most)?;
    push_task_end(text, shown, task)
}

/// Adds the front of the task at a place.
fn push_task_front(
    text: &mut Vec<u8>,
    shown: &Shown<'_, '_>,
    place: usize,
    task: ShownTask<'_>,
) -> Result<(), AllocError>
    ensures { OnOk result (text.new.items ≡ text.old.items ++ shown_item_front shown.now place task.entry) }
{
    push_parts(
        text,
        &[
            Part::Words(comma(place)),
            Part::Words("{\"arrival\":"),
            Part::Wide(shown.any_response(task)),
            Part::Words(",\"cost\":"),
            Part::Number(task.slots.cost),
            Part::Words(",\"early\":"),
            Part::Number(task.slots.early),
            Part::Words(",\"join\":"),
            Part::Number(task.slots.join),
        ],
    )
}

/// Adds the least time of a task.
fn push_least(
    text: &mut Vec<u8>,
    shown: &Shown<'_, '_>,
    task: ShownTask<'_>,
) -> Result<(), AllocError>
    ensures { OnOk result (text.new.items ≡ text.old.items ++ least_json shown.now task.entry) }
{
    push_parts(text, &[Part::Words(",\"least\":")])?;
    push_wide_option(text, shown.least_time(task))
}

/// Adds the most work of a task.
fn push_most(text: &mut Vec<u8>, most: Option<u64>) -> Result<(), AllocError>
    ensures { OnOk result (text.new.items ≡ text.old.items ++ most_json most) }
{
    push_parts(text, &[Part::Words(",\"most\":")])?;
    push_option(text, most)
}

/// Adds the end of a task.
fn push_task_end(
    text: &mut Vec<u8>,
    shown: &Shown<'_, '_>,
    task: ShownTask<'_>,
) -> Result<(), AllocError>
    ensures { OnOk result (text.new.items ≡ text.old.items ++ shown_item_end shown.now task.entry) }
{
    let response = u128::from(task.slots.period) * u128::from(shown.quantum.length);
    push_parts(
        text,
        &[
            Part::Words(",\"period\":"),
            Part::Number(task.slots.period),
            Part::Words(",\"response\":"),
            Part::Wide(response),
            Part::Words("}"),
        ],
    )
}

/// Adds a longer number, or null where there is none.
fn push_wide_option(text: &mut Vec<u8>, number: Option<u128>) -> Result<(), AllocError>
    ensures { OnOk result (text.new.items ≡ text.old.items ++ option_json number) }
{
    match number {
        Some(number) => push_parts(text, &[Part::Wide(number)]),
        None => push_parts(text, &[Part::Words("null")]),
    }
}

/// Adds the quantum that is shown without a plan, null where there is none.
fn push_unplanned(
    text: &mut Vec<u8>,
    file: &ListFile<'_>,
    terms: Terms,
    planned: Option<&Planned>,
) -> Result<(), AllocError>
    ensures { OnOk result (text.new.items ≡ text.old.items ++ unplanned_json file.now terms (option_map (λ p. p.now) planned.entry)) }
{
    match planned {
        Some(planned) => {
            let quantum = planned.quantum.length;
            push_no_plan(text, file, terms.arrivals, quantum, &planned.faults)
        }
        None => push_parts(text, &[Part::Words("null")]),
    }
}
