ghost use Rattle.std.specs.Prelude.{◌≡◌, codes, IfOk};
ghost use Rattle.clap.specs.Words.{subcommand_rows_of};
ghost use Rattle.pf_arguments.specs.CommandLine.{text_behind_run};
ghost use Rattle.pf_arguments.specs.Asked.{IsSound, fail_on_given, run_listed, run_of, run_with, takes_tasks, tasks_given};

use crate::mistake::Mistake;
use crate::task::Task;
use crate::words::{option_text, read_fail_on, read_format};
use clap::ArgMatches;
use pf_vocabulary::options::fail_on::FailOn;
use pf_vocabulary::options::format::Format;
use pf_vocabulary::task_words::task_words::TaskWords;
use std::alloc::{AllocError, Global};

/// The run that words ask for.
///
/// # Errors
///
/// Where memory is refused.
pub(crate) fn read_run(
    alloc: Global,
    matches: &ArgMatches<'_>,
) -> Result<Result<Task, Mistake>, AllocError>
    ensures task { IfOk result (λ task. task ≡ run_of (subcommand_rows_of matches.now)) }
    ensures sound { IfOk result (λ task. IfOk task IsSound) }
{
    match read_format(matches) {
        Ok(format) => {
            // A copy of its own for each call: so the check follows both.
            let shown = format;
            let tasks = read_tasks(alloc, matches, shown)?;
            Ok(run_listed(format, tasks, read_fail_on(matches)))
        }
        Err(mistake) => Ok(Err(mistake)),
    }
}

/// The tasks that a run is to show in this format, all where `--task` is left out.
fn read_tasks(
    alloc: Global,
    matches: &ArgMatches<'_>,
    format: Format,
) -> Result<Result<Option<TaskWords>, Mistake>, AllocError>
    ensures { IfOk result (λ tasks. tasks ≡ tasks_given format (text_behind_run (codes "task") (subcommand_rows_of matches.now))) }
{
    let Some(text) = option_text(matches, "run", "task") else {
        return Ok(Ok(None));
    };
    let Some(words) = TaskWords::read(alloc, text.as_bytes())? else {
        return Ok(Err(Mistake::BadTasks));
    };
    if !takes_tasks(format) {
        return Ok(Err(Mistake::NoTasks));
    }
    Ok(Ok(Some(words)))
}

/// Whether the format can show some tasks alone.
fn takes_tasks(format: Format) -> bool
    ensures { result ≡ takes_tasks format }
{
    matches!(
        format,
        Format::Windows(_)
            | Format::Jobs
            | Format::Quanta(_)
            | Format::Stats
            | Format::Lags
            | Format::Misses
            | Format::Chart(_)
            | Format::Svg(..)
    )
}

/// The run in this format, of these tasks, that fails on this, or the first mistake.
fn run_listed(
    format: Format,
    tasks: Result<Option<TaskWords>, Mistake>,
    fail_on: Result<FailOn, Mistake>,
) -> Result<Task, Mistake>
    ensures task { result ≡ run_listed format tasks fail_on }
    ensures sound { IfOk result IsSound }
{
    match tasks? {
        Some(words) => Ok(Task::RunTasks(format, words, fail_on?)),
        None => Ok(Task::Run(format, fail_on?)),
    }
}
