ghost use Rattle.std.specs.Prelude.{◌≡◌, ◌++◌, ◌^◌, ◌<◌, [], IfOk, IfSome, OnOk};
ghost use Rattle.std.specs.List.{flat_map};
ghost use Rattle.pf_run.specs.Computed.{run_of};
ghost use Rattle.pf_text.specs.Page.{with_record};
ghost use Rattle.pf_vocabulary.specs.NameColumn.Column.{name_fields};
ghost use Rattle.pf_jobs.specs.Jobs.{finish_fields, job_record, jobs_records, jobs_text, named_behind_job};

use crate::job::Job;
use crate::task_run::TaskRun;
use pf_desk::snapshot::Snapshot;
use pf_tally::admitted::admitted_by_number;
use pf_tally::ledger::make_ledger;
use pf_text::pieces::{Chain, Whole};
use pf_text::sheets::{Sheet, SheetPieces};
use pf_text::table::Table;
use pf_vocabulary::name_column::column::{push_heading, show_name};
use pf_vocabulary::names::titles::Titles;
use pf_vocabulary::tasks::task_list::TaskList;
use std::alloc::{AllocError, Global};
use std::marker::Model;

/// Adds the fields of a job's end: empty where it is not finished.
fn show_finish(table: &mut Table, job: Job) -> Result<(), AllocError>
    requires release { job.release < 2 ^ 56 }
    requires finish { IfSome job.finish (λ t. t < 2 ^ 32) }
    ensures { OnOk result (table.new ≡ record { text = table.old.text; fields = table.old.fields ++ finish_fields job job.finish }) }
{
    match job.finish {
        Some(slot) => {
            table.show_number(slot)?;
            table.show(slot as i64 - job.release as i64)?;
            table.show_number(slot.saturating_sub(job.deadline))
        }
        None => {
            table.show_nothing()?;
            table.show_nothing()?;
            table.show_nothing()
        }
    }
}

/// Adds the record of a job.
fn push_job(table: &mut Table, job: Job, titles: &Titles) -> Result<(), AllocError>
    requires start { table.old.fields ≡ [] }
    requires release { job.release < 2 ^ 56 }
    requires finish { IfSome job.finish (λ t. t < 2 ^ 32) }
    ensures { OnOk result (table.new ≡ with_record table.old (job_record job ++ name_fields titles.now job.task)) }
{
    table.show_number(job.task)?;
    table.show_number(job.number)?;
    table.show_number(job.release)?;
    table.show_number(job.deadline)?;
    show_finish(table, job)?;
    show_name(table, titles, job.task)?;
    table.end_record()
}

/// The jobs of a task, and what the script calls it.
#[derive(Drop)]
pub struct JobSheet<'a> {
    run: TaskRun,
    titles: &'a Titles,
}

impl<'a> Model for JobSheet<'a> {
    ghost use Rattle.pf_jobs.specs.Ran.{NamedRan};

    ghost Value = { NamedRan };

    ghost view = { λ s. record { ran = s.run; titles = s.titles.now } };
}

impl Sheet for JobSheet<'_> {
    ghost use Rattle.pf_jobs.specs.Jobs.{job_count, named_behind_job};

    ghost count = { λ s. job_count s.ran };

    ghost rest = { named_behind_job };

    fn count(&self) -> u64 {
        self.run.job_count()
    }

    fn push_place(&self, table: &mut Table, at: u64) -> Result<(), AllocError> {
        // That a place after this one can be counted is known from the count alone.
        let _ = self.run.job_count();
        let job = self.run.job(at + 1);
        if self.run.tells(job) {
            push_job(table, job, self.titles)
        } else {
            Ok(())
        }
    }
}

/// The jobs that a snapshot shows, of each task of a list that was admitted, by its number.
fn job_sheets<'a>(
    alloc: Global,
    snapshot: &Snapshot,
    tasks: &TaskList,
    titles: &'a Titles,
) -> Result<Vec<JobSheet<'a>>, AllocError>
    ensures { IfOk result (λ v. flat_map (λ sheet. named_behind_job sheet 0) v.items
        ≡ jobs_records snapshot.now.state.plan (run_of snapshot.now.state.plan snapshot.now.state.now) tasks.now titles.now) }
{
    // That the rows are those of the scenario's run is known from its calls alone.
    let _ = snapshot.now();
    let ledger = make_ledger(
        alloc,
        snapshot.scenario(),
        snapshot.rows(),
        snapshot.denials(),
    )?;
    let admitted = admitted_by_number(alloc, ledger.settings, &ledger.events)?;
    let mut sheets = Vec::new(alloc);
    for task in &admitted {
        if tasks.has(task.task) {
            let ran = ledger.quanta(*task);
            let diary = ledger.diary(*task);
            let run = TaskRun::of(alloc, *task, ran, diary, ledger.now)?;
            sheets.push(JobSheet { run, titles })?;
        }
    }
    Ok(sheets)
}

/// The jobs of tasks as a table, in pieces: the heading, and then the records.
pub type JobPieces<'a> = Chain<Whole, SheetPieces<JobSheet<'a>>>;

/// The jobs of the tasks of a list as a table, in pieces, by task number, then by their own: of each job that is finished, or
/// whose deadline the task did not leave before, its release and its deadline, the slot after the one in which it was
/// finished, how long it took from its release to there, 0 or less where it worked ahead of it, and by how many slots it was
/// overdue. In a plan the name of the task stands last, or nothing where it has none.
///
/// # Errors
///
/// Where memory is refused.
pub fn job_pieces<'a>(
    alloc: Global,
    snapshot: &Snapshot,
    tasks: &TaskList,
    titles: &'a Titles,
) -> Result<JobPieces<'a>, AllocError>
    ensures { IfOk result (λ pieces. pieces ≡ jobs_text snapshot.now tasks.now titles.now) }
{
    let mut table = Table::new(alloc);
    let texts = [
        "task",
        "job",
        "release",
        "deadline",
        "finish",
        "response",
        "tardiness",
    ];
    push_heading(&mut table, &texts, titles)?;
    let heading = Whole::new(table.finish()?);
    let sheets = job_sheets(alloc, snapshot, tasks, titles)?;
    Ok(Chain::new(heading, SheetPieces::new(sheets)))
}
