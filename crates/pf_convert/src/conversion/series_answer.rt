ghost use Rattle.std.specs.Prelude.{◌≡◌, ◌≤◌, All, IfOk, length};
ghost use Rattle.pf_weight.specs.declared.task.TheConstants.{LARGEST_TASK};
ghost use Rattle.pf_convert.specs.Slots.{IsTimed};
ghost use Rattle.pf_convert.specs.Conversion.Answers.{EndsSeries, IsJsonAnswer, IsSeriesOf, IsTableAnswer, best_status};
ghost use Rattle.pf_convert.specs.Conversion.Series.{HoldAll};

use crate::best_quantum::best_quantum;
use crate::conversion::json::push_json;
use crate::conversion::list_file::ListFile;
use crate::conversion::notes::series_notes;
use crate::conversion::planned::Planned;
use crate::conversion::series::outcomes_of;
use crate::conversion::table::{Series, push_series};
use crate::conversion::times::work_of;
use crate::list::listed::Listed;
use crate::terms::Terms;
use pf_vocabulary::fault::answer::Answer;
use pf_vocabulary::fault::ending::Ending;
use pf_vocabulary::fault::status::Status;
use std::alloc::{AllocError, Global};

/// The answer of what several quanta give, as a table; why one gives no plan is told in the notes.
///
/// # Errors
///
/// Where memory is refused.
pub fn table_answer(
    alloc: Global,
    file: &ListFile<'_>,
    terms: Terms,
    tasks: &[Listed],
    all: &[Planned],
) -> Result<Answer, AllocError>
    requires timed { All (λ t. IsTimed t.times) tasks.now }
    requires few { length tasks.now ≤ LARGEST_TASK }
    requires holds { HoldAll all.now }
    ensures { IfOk result (IsTableAnswer file.now terms tasks.now all.now) }
{
    let series = series_of(alloc, file, terms, tasks, all)?;
    let mut text = Vec::new(alloc);
    push_series(&mut text, series, all)?;
    let ending = series_ending(alloc, file, series, tasks, all)?;
    Ok(Answer { text, ending })
}

/// The same as an object of JSON.
///
/// # Errors
///
/// Where memory is refused.
pub fn json_answer(
    alloc: Global,
    file: &ListFile<'_>,
    terms: Terms,
    tasks: &[Listed],
    all: &[Planned],
) -> Result<Answer, AllocError>
    requires timed { All (λ t. IsTimed t.times) tasks.now }
    requires few { length tasks.now ≤ LARGEST_TASK }
    requires holds { HoldAll all.now }
    ensures { IfOk result (IsJsonAnswer file.now terms tasks.now all.now) }
{
    let series = series_of(alloc, file, terms, tasks, all)?;
    let mut text = Vec::new(alloc);
    push_json(&mut text, file, series, terms.switch, tasks, all)?;
    let ending = series_ending(alloc, file, series, tasks, all)?;
    Ok(Answer { text, ending })
}

/// What several quanta are told by: the work of the tasks, and which is the best.
fn series_of(
    alloc: Global,
    file: &ListFile<'_>,
    terms: Terms,
    tasks: &[Listed],
    all: &[Planned],
) -> Result<Series, AllocError>
    requires timed { All (λ t. IsTimed t.times) tasks.now }
    requires few { length tasks.now ≤ LARGEST_TASK }
    ensures { IfOk result (IsSeriesOf file.now terms tasks.now all.now) }
{
    let work = work_of(alloc, tasks)?;
    let outcomes = outcomes_of(alloc, all)?;
    let best = best_quantum(&outcomes, terms.processors);
    Ok(Series {
        unit: file.unit,
        arrivals: terms.arrivals,
        processors: terms.processors,
        work,
        best,
    })
}

/// What several quanta end with: their notes, and whether one is the best.
fn series_ending(
    alloc: Global,
    file: &ListFile<'_>,
    series: Series,
    tasks: &[Listed],
    all: &[Planned],
) -> Result<Ending, AllocError>
    ensures { IfOk result (EndsSeries file.now series tasks.now all.now) }
{
    let notes = series_notes(alloc, file, series.arrivals, tasks, all)?;
    let status = best_status(series.best);
    Ok(Ending { status, notes })
}

/// The status where the best quantum has this place.
fn best_status(best: Option<usize>) -> Status
    ensures { result ≡ best_status best }
{
    match best {
        Some(_) => Status::Done,
        None => Status::FailedOn,
    }
}
