ghost use Rattle.std.specs.Prelude.{◌≡◌, ◌≤◌, All, IfOk, IfSome, length};
ghost use Rattle.pf_weight.specs.declared.task.TheConstants.{LARGEST_TASK};
ghost use Rattle.pf_convert.specs.Slots.{IsTimed};
ghost use Rattle.pf_convert.specs.Conversion.Answers.{IsPlanAnswer, IsScriptAnswer, IsTold, OnProcessors, ScriptFor, faults_told, fit_status, tried_line, tried_of, too_many_text};
ghost use Rattle.pf_convert.specs.Conversion.Notes.{no_quantum_line};
ghost use Rattle.pf_convert.specs.Conversion.Series.{HoldAll};
ghost use Rattle.pf_convert.specs.Conversion.Planned.{HoldsPlan, HoldsTasks};

use crate::conversion::bad_list::bad_list;
use crate::conversion::choice::Choice;
use crate::conversion::list_file::ListFile;
use crate::conversion::notes::push_no_quantum;
use crate::conversion::plan_faults::fault_messages;
use crate::conversion::planned::Planned;
use crate::conversion::report::push_table;
use crate::conversion::script::push_script;
use crate::conversion::series::outcomes_of;
use crate::conversion::summary::push_summary;
use crate::conversion::times::work_of;
use crate::conversion::tried_line::push_tried_line;
use crate::list::listed::Listed;
use crate::list::parts::{Part, push_parts};
use crate::plan::Plan;
use crate::shown_quantum::shown_quantum;
use crate::terms::Terms;
use pf_message::form::push_file_front;
use pf_scenario::settings::MOST_PROCESSORS;
use pf_vocabulary::fault::answer::Answer;
use pf_vocabulary::fault::ending::Ending;
use pf_vocabulary::fault::status::Status;
use pf_vocabulary::names::unit::Unit;
use std::alloc::{AllocError, Global};

/// The answer of what quanta give, as the script of the plan that is shown; its table and its faults are the notes. The quanta are
/// those of the words, or those that were tried where the words give none.
///
/// # Errors
///
/// Where memory is refused.
pub fn script_answer(
    alloc: Global,
    file: &ListFile<'_>,
    terms: Terms,
    quanta: &[u64],
    tasks: &[Listed],
    all: &[Planned],
) -> Result<Answer, AllocError>
    requires timed { All (λ t. IsTimed t.times) tasks.now }
    requires few { length tasks.now ≤ LARGEST_TASK }
    requires holds { HoldAll all.now }
    requires processors { IfSome terms.processors (λ m. m ≤ 64) }
    ensures { IfOk result (IsScriptAnswer file.now terms quanta.now tasks.now all.now) }
{
    let outcomes = outcomes_of(alloc, all)?;
    match shown_quantum(&outcomes, terms.processors) {
        Some(place) => {
            let tried = tried_of(quanta, all);
            quantum_answer(alloc, file, terms, tried, tasks, &all[place])
        }
        None => no_quantum_answer(alloc, file, tasks),
    }
}

/// How many quanta were tried, where none is given.
fn tried_of(quanta: &[u64], all: &[Planned]) -> Option<usize>
    ensures { result ≡ tried_of quanta.now all.now }
{
    if quanta.is_empty() {
        Some(all.len())
    } else {
        None
    }
}

/// The answer that only tells that no quantum could be tried.
fn no_quantum_answer(
    alloc: Global,
    file: &ListFile<'_>,
    tasks: &[Listed],
) -> Result<Answer, AllocError>
    ensures { IfOk result (IsTold (no_quantum_line file.now tasks.now)) }
{
    let mut notes = Vec::new(alloc);
    push_no_quantum(&mut notes, file, tasks)?;
    Ok(bad_list(alloc, notes))
}

/// The answer that only tells the faults of a quantum.
fn fault_answer(
    alloc: Global,
    file: &ListFile<'_>,
    terms: Terms,
    planned: &Planned,
) -> Result<Answer, AllocError>
    ensures { IfOk result (IsTold (faults_told file.now terms planned.now)) }
{
    let quantum = planned.quantum.length;
    let messages = fault_messages(alloc, file, terms.arrivals, quantum, &planned.faults)?;
    let mut notes = Vec::new(alloc);
    messages.push_to(&mut notes, file.name, file.text)?;
    Ok(bad_list(alloc, notes))
}

/// The answer that only tells how many processors are needed.
fn too_many_answer(alloc: Global, file: &ListFile<'_>, needed: u64) -> Result<Answer, AllocError>
    ensures { IfOk result (IsTold (too_many_text file.now needed)) }
{
    let mut notes = Vec::new(alloc);
    push_file_front(&mut notes, file.name)?;
    push_parts(
        &mut notes,
        &[
            Part::Number(needed),
            Part::Words(" processors are needed, and 64 are the most\n"),
        ],
    )?;
    Ok(bad_list(alloc, notes))
}

/// The answer of what a quantum gives.
fn quantum_answer(
    alloc: Global,
    file: &ListFile<'_>,
    terms: Terms,
    tried: Option<usize>,
    tasks: &[Listed],
    planned: &Planned,
) -> Result<Answer, AllocError>
    requires timed { All (λ t. IsTimed t.times) tasks.now }
    requires few { length tasks.now ≤ LARGEST_TASK }
    requires holds { HoldsPlan planned.now.plan }
    requires processors { IfSome terms.processors (λ m. m ≤ 64) }
    ensures { IfOk result (ScriptFor file.now terms tried tasks.now planned.now planned.now.plan planned.now.needed) }
{
    let Some(plan) = &planned.plan else {
        return fault_answer(alloc, file, terms, planned);
    };
    let Some(needed) = planned.needed else {
        return fault_answer(alloc, file, terms, planned);
    };
    let quantum = planned.quantum.length;
    let choice = Choice {
        processors: terms.processors,
        needed,
        tried,
    };
    fitted_answer(alloc, file, quantum, tasks, plan, choice)
}

/// The answer of a plan, on the processors that are given or on as many as are needed.
fn fitted_answer(
    alloc: Global,
    file: &ListFile<'_>,
    quantum: u64,
    tasks: &[Listed],
    plan: &Plan,
    choice: Choice,
) -> Result<Answer, AllocError>
    requires timed { All (λ t. IsTimed t.times) tasks.now }
    requires few { length tasks.now ≤ LARGEST_TASK }
    requires plan { HoldsTasks plan.now }
    requires processors { IfSome choice.processors (λ m. m ≤ 64) }
    ensures { IfOk result (OnProcessors file.now quantum tasks.now plan.now choice.needed
        (tried_line file.now.unit quantum choice.processors choice.needed choice.tried) choice.processors) }
{
    match choice.processors {
        Some(given) => plan_answer(alloc, file.unit, given, quantum, tasks, plan, choice),
        None => {
            let needed = choice.needed;
            if needed > MOST_PROCESSORS {
                return too_many_answer(alloc, file, needed);
            }
            plan_answer(alloc, file.unit, needed, quantum, tasks, plan, choice)
        }
    }
}

/// The answer of a plan on so many processors.
fn plan_answer(
    alloc: Global,
    unit: Unit,
    processors: u64,
    quantum: u64,
    tasks: &[Listed],
    plan: &Plan,
    choice: Choice,
) -> Result<Answer, AllocError>
    requires timed { All (λ t. IsTimed t.times) tasks.now }
    requires few { length tasks.now ≤ LARGEST_TASK }
    requires plan { HoldsTasks plan.now }
    requires processors { processors ≤ 64 }
    ensures { IfOk result (IsPlanAnswer unit processors quantum tasks.now plan.now
        (tried_line unit quantum choice.processors choice.needed choice.tried)) }
{
    let work = work_of(alloc, tasks)?;
    let mut text = Vec::new(alloc);
    push_script(&mut text, processors, quantum, tasks, plan)?;
    let mut notes = Vec::new(alloc);
    push_table(alloc, &mut notes, unit, quantum, tasks, &plan.tasks)?;
    notes.push(b'\n')?;
    push_summary(&mut notes, processors, plan, work)?;
    push_tried_line(&mut notes, unit, quantum, choice)?;
    let status = fit_status(plan.load, processors * plan.base);
    Ok(Answer {
        text,
        ending: Ending { status, notes },
    })
}

/// What a plan ends with of this load on processors that give so many units.
fn fit_status(load: u64, room: u64) -> Status
    ensures { result ≡ fit_status load room }
{
    if load <= room {
        Status::Done
    } else {
        Status::FailedOn
    }
}
