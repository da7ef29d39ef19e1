ghost use Rattle.std.specs.Prelude.{◌≡◌, ◌≤◌, All, IfOk, length};
ghost use Rattle.pf_weight.specs.declared.task.TheConstants.{LARGEST_TASK};
ghost use Rattle.pf_convert.specs.Slots.{IsTimed};
ghost use Rattle.pf_convert.specs.List.Messages.{messages_text};
ghost use Rattle.pf_convert.specs.Words.Reading.{IsConversion};
ghost use Rattle.pf_convert.specs.Conversion.Answers.{IsTold};
ghost use Rattle.pf_convert.specs.Conversion.Conversions.{AnswersList, IsAnswerIn, IsAnswerOf, MakesConversion, terms_of};
ghost use Rattle.pf_convert.specs.Conversion.Series.{HoldAll};

use crate::conversion::bad_list::bad_list;
use crate::conversion::list_file::ListFile;
use crate::conversion::planned::Planned;
use crate::conversion::script_answer::script_answer;
use crate::conversion::series_answer::{json_answer, table_answer};
use crate::conversion::tried::plan_quanta;
use crate::list::list::{TaskList, read_list};
use crate::list::listed::Listed;
use crate::list::messages::Messages;
use crate::list::shown_unit::shown_unit;
use crate::terms::Terms;
use crate::words::conversion::{Conversion, ConvertFormat};
use pf_vocabulary::fault::answer::Answer;
use std::alloc::{AllocError, Global};

/// A list of tasks, in a file of this name, as what the words of a conversion ask for.
///
/// # Errors
///
/// Where memory is refused.
pub fn convert(
    alloc: Global,
    file: &[u8],
    list: &[u8],
    asked: &Conversion,
) -> Result<Answer, AllocError>
    requires { IsConversion asked.now }
    ensures { IfOk result (MakesConversion file.now asked.now list.now) }
{
    let told = read_list(alloc, file, asked.unit, list)?;
    answer_list(alloc, file, list, asked, &told)
}

/// The answer of what a list tells: the messages of its faults, or what the quanta give.
fn answer_list(
    alloc: Global,
    file: &[u8],
    list: &[u8],
    asked: &Conversion,
    told: &TaskList,
) -> Result<Answer, AllocError>
    requires { IsConversion asked.now }
    ensures { IfOk result (AnswersList file.now list.now asked.now told.now told.now.faults) }
{
    if told.faults().len() > 0 {
        return fault_answer(alloc, file, list, told.faults());
    }
    plans_answer(alloc, file, list, asked, told)
}

/// The answer that only tells these messages.
pub fn fault_answer(
    alloc: Global,
    file: &[u8],
    list: &[u8],
    faults: &Messages,
) -> Result<Answer, AllocError>
    ensures { IfOk result (IsTold (messages_text file.now list.now faults.now)) }
{
    let mut notes = Vec::new(alloc);
    faults.push_to(&mut notes, file, list)?;
    Ok(bad_list(alloc, notes))
}

/// What plans are made under.
pub fn terms_of(asked: &Conversion) -> Terms
    ensures { result ≡ terms_of asked.now }
{
    Terms {
        arrivals: asked.arrivals,
        switch: asked.switch,
        processors: asked.processors,
    }
}

/// The answer of what the quanta give.
fn plans_answer(
    alloc: Global,
    file: &[u8],
    list: &[u8],
    asked: &Conversion,
    told: &TaskList,
) -> Result<Answer, AllocError>
    requires { IsConversion asked.now }
    ensures { IfOk result (IsAnswerOf file.now list.now asked.now told.now) }
{
    let tasks = told.tasks();
    let file = ListFile {
        name: file,
        text: list,
        heading: *told.heading(),
        unit: shown_unit(asked.unit, tasks),
    };
    let all = plan_quanta(alloc, terms_of(asked), asked.quanta.all(), tasks)?;
    answer_in(alloc, &file, asked, tasks, &all)
}

/// The answer in the format that is asked for.
fn answer_in(
    alloc: Global,
    file: &ListFile<'_>,
    asked: &Conversion,
    tasks: &[Listed],
    all: &[Planned],
) -> Result<Answer, AllocError>
    requires asked { IsConversion asked.now }
    requires timed { All (λ t. IsTimed t.times) tasks.now }
    requires few { length tasks.now ≤ LARGEST_TASK }
    requires holds { HoldAll all.now }
    ensures { IfOk result (IsAnswerIn asked.now.format file.now asked.now tasks.now all.now) }
{
    let terms = terms_of(asked);
    match asked.format {
        ConvertFormat::Script => {
            script_answer(alloc, file, terms, asked.quanta.all(), tasks, all)
        }
        ConvertFormat::Table => table_answer(alloc, file, terms, tasks, all),
        ConvertFormat::Json => json_answer(alloc, file, terms, tasks, all),
    }
}
