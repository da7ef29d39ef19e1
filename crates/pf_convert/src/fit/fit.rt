ghost use Rattle.std.specs.Prelude.{◌≡◌, ◌≤◌, All, IfOk, MatchOption, length, map, option_map};
ghost use Rattle.pf_vocabulary.specs.declared.options.fit_format.FitFormat.TheVariants.{Json, Text};
ghost use Rattle.pf_convert.specs.Plans.{IsNeeded};
ghost use Rattle.pf_weight.specs.declared.task.TheConstants.{LARGEST_TASK};
ghost use Rattle.pf_vocabulary.specs.declared.fault.status.Status.TheVariants.{FailedOn};
ghost use Rattle.pf_convert.specs.Conversion.Series.{outcome_of};
ghost use Rattle.pf_convert.specs.Fit.Answers.{AreShownTasks, FitFor, FitTold, IsFitOf, IsFitTold, IsPlanFit, IsReady, IsWritten, MakesFit, fit_status, fit_text, is_given, no_fit_text, processors_for};
ghost use Rattle.pf_convert.specs.Fit.Shown.{IsShown, is_fit};
ghost use Rattle.pf_convert.specs.Margins.Fitting.{IsPlan};
ghost use Rattle.pf_convert.specs.Slots.{IsQuantum, IsTimed};
ghost use Rattle.pf_convert.specs.Words.Reading.{IsConversion};

use crate::conversion::convert::{fault_answer, terms_of};
use crate::conversion::list_file::ListFile;
use crate::conversion::planned::Planned;
use crate::conversion::series::outcomes_of;
use crate::conversion::times::{times_of, work_of};
use crate::conversion::tried::plan_quanta;
use crate::fit::exactness::Exactness;
use crate::fit::json::{push_no_shown_json, push_shown_json};
use crate::fit::no_plan::{push_no_plan, push_nothing};
use crate::fit::shown::Shown;
use crate::fit::shown_task::ShownTask;
use crate::fit::text::push_shown_text;
use crate::list::list::{TaskList, read_list};
use crate::list::listed::Listed;
use crate::list::shown_unit::shown_unit;
use crate::margins::margins::Margins;
use crate::outcome::Outcome;
use crate::plan::Plan;
use crate::shown_quantum::shown_quantum;
use crate::words::conversion::Conversion;
use pf_scenario::settings::MOST_PROCESSORS;
use pf_vocabulary::fault::answer::Answer;
use pf_vocabulary::fault::ending::Ending;
use pf_vocabulary::fault::status::Status;
use pf_vocabulary::options::fit_format::FitFormat;
use std::alloc::{AllocError, Global};

/// Whether a list of tasks, in a file of this name, fits what its words ask for, but for their format: the plan that is shown, how
/// far each of its numbers may go, and what comes next.
///
/// # Errors
///
/// Where memory is refused.
pub fn fit_list<'a>(
    alloc: Global,
    file: &'a [u8],
    list: &'a [u8],
    format: FitFormat,
    asked: &Conversion,
) -> Result<Answer, AllocError>
    requires { IsConversion asked.now }
    ensures { IfOk result (MakesFit file.now asked.now format list.now) }
{
    let told = read_list(alloc, file, asked.unit, list)?;
    fit_told(alloc, file, list, format, asked, &told)
}

/// The answer of what a list tells: the messages of its faults, or whether its tasks fit.
fn fit_told<'a>(
    alloc: Global,
    file: &'a [u8],
    list: &'a [u8],
    format: FitFormat,
    asked: &Conversion,
    told: &'a TaskList,
) -> Result<Answer, AllocError>
    requires { IsConversion asked.now }
    ensures { IfOk result (FitTold file.now list.now asked.now format told.now told.now.faults) }
{
    if told.faults().len() > 0 {
        return fault_answer(alloc, file, list, told.faults());
    }
    fit_tasks(alloc, file, list, format, asked, told)
}

/// Whether the tasks of a list fit.
#[tactic(auto, using(crate::proofs::FitLemmas::Ready::all_ready))]
fn fit_tasks<'a>(
    alloc: Global,
    file: &'a [u8],
    list: &'a [u8],
    format: FitFormat,
    asked: &Conversion,
    told: &'a TaskList,
) -> Result<Answer, AllocError>
    requires { IsConversion asked.now }
    ensures { IfOk result (IsFitTold file.now list.now asked.now format told.now) }
{
    let tasks = told.tasks();
    let file = ListFile {
        name: file,
        text: list,
        heading: *told.heading(),
        unit: shown_unit(asked.unit, tasks),
    };
    let all = plan_quanta(alloc, terms_of(asked), asked.quanta.all(), tasks)?;
    fit_all(alloc, &file, format, asked, tasks, &all)
}

/// The answer of the quantum that is shown of these.
fn fit_all<'a>(
    alloc: Global,
    file: &'a ListFile<'a>,
    format: FitFormat,
    asked: &Conversion,
    listed: &'a [Listed],
    all: &'a [Planned],
) -> Result<Answer, AllocError>
    requires asked { IsConversion asked.now }
    requires timed { All (λ t. IsTimed t.times) listed.now }
    requires few { length listed.now ≤ LARGEST_TASK }
    requires ready { All (IsReady listed.now) all.now }
    ensures { IfOk result (IsFitOf file.now asked.now format listed.now all.now) }
{
    let outcomes = outcomes_of(alloc, all)?;
    match shown_quantum(&outcomes, asked.processors) {
        Some(place) => fit_planned(
            alloc,
            file,
            format,
            asked,
            listed,
            all,
            &outcomes,
            &all[place],
        ),
        None => no_fit(alloc, file, format, asked, listed, all, &outcomes, None),
    }
}

/// The answer of the quantum that is shown.
fn fit_planned<'a>(
    alloc: Global,
    file: &'a ListFile<'a>,
    format: FitFormat,
    asked: &Conversion,
    listed: &'a [Listed],
    all: &[Planned],
    outcomes: &[Outcome],
    planned: &'a Planned,
) -> Result<Answer, AllocError>
    requires asked { IsConversion asked.now }
    requires timed { All (λ t. IsTimed t.times) listed.now }
    requires few { length listed.now ≤ LARGEST_TASK }
    requires outcomes { outcomes.now ≡ map outcome_of all.now }
    requires ready { IsReady listed.now planned.now }
    ensures { IfOk result (FitFor file.now asked.now format listed.now all.now planned.now planned.now.plan) }
{
    match &planned.plan {
        Some(plan) => fit_plan(
            alloc, file, format, asked, listed, all, outcomes, planned, plan,
        ),
        None => no_fit(
            alloc,
            file,
            format,
            asked,
            listed,
            all,
            outcomes,
            Some(planned),
        ),
    }
}

/// The answer of its plan.
#[tactic(auto, using(crate::proofs::FitLemmas::Showing::times_timed, crate::proofs::FitLemmas::Showing::times_as_many, crate::proofs::FitLemmas::Showing::needed_given, crate::proofs::FitLemmas::Showing::few_processors, crate::proofs::FitLemmas::Showing::shown_tasks_are))]
fn fit_plan<'a>(
    alloc: Global,
    file: &'a ListFile<'a>,
    format: FitFormat,
    asked: &Conversion,
    listed: &'a [Listed],
    all: &[Planned],
    outcomes: &[Outcome],
    planned: &Planned,
    plan: &'a Plan,
) -> Result<Answer, AllocError>
    requires asked { IsConversion asked.now }
    requires timed { All (λ t. IsTimed t.times) listed.now }
    requires few { length listed.now ≤ LARGEST_TASK }
    requires outcomes { outcomes.now ≡ map outcome_of all.now }
    requires quantum { IsQuantum planned.now.quantum }
    requires needed { MatchOption planned.now.needed ⊥ (IsNeeded plan.now.base plan.now.load) }
    requires plan { IsPlan plan.now }
    requires as_many { length listed.now ≡ length plan.now.tasks.items }
    ensures { IfOk result (IsPlanFit file.now asked.now format listed.now all.now planned.now plan.now) }
{
    let needed = planned.needed.unwrap_or(0);
    let processors = processors_for(asked.processors, needed);
    let times = times_of(alloc, listed)?;
    let margins = Margins::of(alloc, processors, planned.quantum, &times, plan)?;
    let tasks = shown_tasks(alloc, listed, plan, &margins)?;
    let length = planned.quantum.length;
    let shown = Shown {
        file,
        unit: asked.unit,
        terms: terms_of(asked),
        is_given: is_given(asked.quanta.all()),
        count: outcomes.len(),
        quantum: planned.quantum,
        processors,
        plan,
        margins: &margins,
        exactness: Exactness::of(asked.arrivals, length, plan.exact, &tasks),
        listed,
        tasks: &tasks,
    };
    shown_answer(alloc, format, &shown, all, outcomes)
}

/// Whether quanta are given.
fn is_given(quanta: &[u64]) -> bool
    ensures { result ≡ is_given quanta.now }
{
    !quanta.is_empty()
}

/// The processors that a plan is to fit that needs so many.
fn processors_for(given: Option<u64>, needed: u64) -> u64
    ensures { result ≡ processors_for given needed }
{
    given.unwrap_or(needed.min(MOST_PROCESSORS))
}

/// The tasks of a list with their slots and margins.
fn shown_tasks<'a>(
    alloc: Global,
    listed: &'a [Listed],
    plan: &Plan,
    margins: &Margins,
) -> Result<Vec<ShownTask<'a>>, AllocError>
    requires slots { length listed.now ≡ length plan.now.tasks.items }
    requires margins { length listed.now ≡ length margins.now.tasks.items }
    ensures { IfOk result (λ tasks. AreShownTasks listed.now plan.now.tasks.items margins.now.tasks.items tasks.items) }
{
    let mut tasks = Vec::new(alloc);
    for place in 0..listed.len() {
        tasks.push(ShownTask {
            name: listed[place].name.as_bytes(),
            times: listed[place].times,
            slots: plan.tasks[place],
            margin: margins.tasks[place],
        })?;
    }
    Ok(tasks)
}

/// The answer of a plan and its margins.
fn shown_answer(
    alloc: Global,
    format: FitFormat,
    shown: &Shown<'_, '_>,
    all: &[Planned],
    outcomes: &[Outcome],
) -> Result<Answer, AllocError>
    requires shown { IsShown shown.now }
    requires timed { All (λ t. IsTimed t.times) shown.now.listed.now }
    requires few { length shown.now.listed.now ≤ LARGEST_TASK }
    requires outcomes { outcomes.now ≡ map outcome_of all.now }
    ensures { IfOk result (IsWritten (fit_text format shown.now all.now) (fit_status (is_fit shown.now))) }
{
    let text = fit_text(alloc, format, shown, all, outcomes)?;
    Ok(written(alloc, text, fit_status(shown.is_fit())))
}

/// The text of that.
fn fit_text(
    alloc: Global,
    format: FitFormat,
    shown: &Shown<'_, '_>,
    all: &[Planned],
    outcomes: &[Outcome],
) -> Result<Vec<u8>, AllocError>
    requires shown { IsShown shown.now }
    requires timed { All (λ t. IsTimed t.times) shown.now.listed.now }
    requires few { length shown.now.listed.now ≤ LARGEST_TASK }
    requires outcomes { outcomes.now ≡ map outcome_of all.now }
    ensures { IfOk result (λ text. text.items ≡ fit_text format shown.now all.now) }
{
    let mut text = Vec::new(alloc);
    match format {
        FitFormat::Text => push_shown_text(alloc, &mut text, shown)?,
        FitFormat::Json => {
            let work = work_of(alloc, shown.listed)?;
            push_shown_json(&mut text, shown, outcomes, work)?
        }
    }
    Ok(text)
}

/// What a plan ends with that fits, or does not.
fn fit_status(fit: bool) -> Status
    ensures { result ≡ fit_status fit }
{
    if fit { Status::Done } else { Status::FailedOn }
}

/// The answer where the quantum that is shown has no plan, or where there is none.
fn no_fit(
    alloc: Global,
    file: &ListFile<'_>,
    format: FitFormat,
    asked: &Conversion,
    listed: &[Listed],
    all: &[Planned],
    outcomes: &[Outcome],
    planned: Option<&Planned>,
) -> Result<Answer, AllocError>
    requires timed { All (λ t. IsTimed t.times) listed.now }
    requires few { length listed.now ≤ LARGEST_TASK }
    requires outcomes { outcomes.now ≡ map outcome_of all.now }
    ensures { IfOk result (IsWritten (no_fit_text format file.now asked.now listed.now all.now (option_map (λ p. p.now) planned.entry)) FailedOn) }
{
    let text = match format {
        FitFormat::Text => no_fit_text(alloc, file, asked, listed, all, planned)?,
        FitFormat::Json => no_fit_json(alloc, file, asked, listed, all, outcomes, planned)?,
    };
    Ok(written(alloc, text, Status::FailedOn))
}

/// Why there is no plan, as text.
fn no_fit_text(
    alloc: Global,
    file: &ListFile<'_>,
    asked: &Conversion,
    listed: &[Listed],
    all: &[Planned],
    planned: Option<&Planned>,
) -> Result<Vec<u8>, AllocError>
    ensures { IfOk result (λ text. text.items ≡ no_fit_text Text file.now asked.now listed.now all.now (option_map (λ p. p.now) planned.entry)) }
{
    let mut text = Vec::new(alloc);
    match planned {
        Some(planned) => push_no_plan(alloc, &mut text, file, asked.arrivals, all.len(), planned)?,
        None => push_nothing(&mut text, file, asked.arrivals, listed)?,
    }
    Ok(text)
}

/// The same as an object of JSON.
fn no_fit_json(
    alloc: Global,
    file: &ListFile<'_>,
    asked: &Conversion,
    listed: &[Listed],
    all: &[Planned],
    outcomes: &[Outcome],
    planned: Option<&Planned>,
) -> Result<Vec<u8>, AllocError>
    requires timed { All (λ t. IsTimed t.times) listed.now }
    requires few { length listed.now ≤ LARGEST_TASK }
    requires outcomes { outcomes.now ≡ map outcome_of all.now }
    ensures { IfOk result (λ text. text.items ≡ no_fit_text Json file.now asked.now listed.now all.now (option_map (λ p. p.now) planned.entry)) }
{
    let work = work_of(alloc, listed)?;
    let mut text = Vec::new(alloc);
    push_no_shown_json(
        &mut text,
        file,
        terms_of(asked),
        planned,
        listed,
        outcomes,
        work,
    )?;
    Ok(text)
}

/// The answer that only has this text.
fn written(alloc: Global, text: Vec<u8>, status: Status) -> Answer
    ensures { IsWritten text.items status result }
{
    Answer {
        text,
        ending: Ending::quiet(alloc, status),
    }
}
