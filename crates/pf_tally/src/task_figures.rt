ghost use Rattle.std.specs.Prelude.{◌≡◌, Option, List, length, IfOk};
ghost use Rattle.pf_order.specs.declared.pick.Pick.{Pick};
ghost use Rattle.pf_scenario.specs.Scenario.{Plan};
ghost use Rattle.pf_run.specs.declared.denied.Denied.{Denied};
ghost use Rattle.pf_run.specs.Computed.{run_of};
ghost use Rattle.pf_run.specs.RunRows.{AreOfRun};
ghost use Rattle.pf_tally.specs.Quanta.{slots_in};
ghost use Rattle.pf_tally.specs.Figures.{figures_of, figures_of_task};
ghost use Rattle.pf_tally.specs.WalkedRun.{CanFigure, IsWalkOf};

use crate::admitted::{Admitted, admitted_by_number};
use crate::extremes::extremes_of;
use crate::figures::Figures;
use crate::moves::{migrations, preemptions};
use crate::processors::{processors_by_task, processors_of};
use crate::quanta::{quanta_by_task, quanta_of};
use crate::range::{lag_range, last_slot};
use crate::responses::responses;
use crate::tardiness::greatest_tardiness;
use crate::walked_run::{WalkedRun, walk_over};
use pf_place::rows::Rows;
use pf_run::denied::Denied;
use pf_scenario::scenario::Scenario;
use pf_weight::task::number_of;
use std::alloc::{AllocError, Global};

/// The figures of a task that has joined and ran on these processors, in the slots `ran`.
fn figures_of_task(
    alloc: Global,
    run: &WalkedRun,
    task: Admitted,
    processors: &[u32],
    ran: &[u64],
) -> Result<Figures, AllocError>
    requires { CanFigure run.now task ran.now }
    ensures { (s : Plan) (rows : List (List (Option Pick))) (denials : List Denied) → IsWalkOf s rows denials run.now → ran.now ≡ slots_in rows task.task
        → IfOk result (λ figures. figures ≡ figures_of_task (run_of s (length rows)) processors.now run.now.journal.events.items task) }
{
    let delays = run.walk.delays(task);
    let mut misses = Vec::new(alloc);
    run.note_misses(&mut misses, task)?;
    let responses = responses(alloc, task, ran, delays)?;
    let last = last_slot(run.journal.diary(task), task, run.journal.now);
    Ok(Figures {
        task: number_of(task.task),
        cost: task.weight.cost(),
        period: task.weight.period(),
        quanta: ran.len() as u64,
        migrations: migrations(processors),
        preemptions: preemptions(task.weight.cost(), ran),
        jobs: responses.len() as u64,
        response: extremes_of(&responses),
        missed: misses.len() as u64,
        tardiness: greatest_tardiness(&misses),
        lag: lag_range(task, ran, delays, last),
    })
}

/// The figures of the tasks admitted in the slots of these rows, those that left too, by task number. The rows and the
/// denials must be those of the scenario's run.
///
/// # Errors
///
/// Where memory is refused.
pub fn task_figures(
    alloc: Global,
    scenario: &Scenario,
    rows: &Rows,
    denials: &[Denied],
) -> Result<Vec<Figures>, AllocError>
    requires { AreOfRun scenario.now (length rows.now) rows.now denials.now }
    ensures { IfOk result (λ v. v.items ≡ figures_of scenario.now (run_of scenario.now (length rows.now)) rows.now) }
{
    let run = walk_over(alloc, scenario, rows, denials)?;
    let settings = run.settings();
    let processors = processors_by_task(alloc, settings.processors(), rows)?;
    let quanta = quanta_by_task(alloc, settings.processors(), rows)?;
    let tasks = admitted_by_number(alloc, settings, run.events())?;
    let mut figures = Vec::with_capacity(alloc, tasks.len())?;
    for task in &tasks {
        let on = processors_of(&processors, *task);
        let ran = quanta_of(&quanta, *task);
        let told = figures_of_task(alloc, &run, *task, on, ran)?;
        figures.push(told)?;
    }
    Ok(figures)
}
