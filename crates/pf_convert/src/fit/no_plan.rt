ghost use Rattle.std.specs.Prelude.{◌≡◌, ◌++◌, OnOk};
ghost use Rattle.pf_convert.specs.Conversion.PlanFaults.{fault_messages};
ghost use Rattle.pf_convert.specs.Fit.NoPlan.{count_words, no_plan_text, nothing_text};
ghost use Rattle.pf_convert.specs.List.Messages.{messages_text};

use crate::conversion::list_file::ListFile;
use crate::conversion::notes::push_no_quantum;
use crate::conversion::plan_faults::fault_messages;
use crate::conversion::planned::Planned;
use crate::fit::headline::{arrivals_words, push_spaced};
use crate::list::listed::Listed;
use crate::list::parts::{Part, push_parts};
use crate::words::arrivals::Arrivals;
use std::alloc::{AllocError, Global};

/// Adds what is told where no quantum was tried.
///
/// # Errors
///
/// Where memory is refused: a front of it was added.
pub fn push_nothing(
    text: &mut Vec<u8>,
    file: &ListFile<'_>,
    arrivals: Arrivals,
    tasks: &[Listed],
) -> Result<(), AllocError>
    ensures { OnOk result (text.new.items ≡ text.old.items ++ nothing_text file.now arrivals tasks.now) }
{
    push_parts(
        text,
        &[
            Part::Words("does not fit, "),
            Part::Words(arrivals_words(arrivals)),
            Part::Words(": no quantum to try\n"),
        ],
    )?;
    push_no_quantum(text, file, tasks)
}

/// Adds what is told of the quantum that is shown, of so many, where it has no plan.
///
/// # Errors
///
/// Where memory is refused: a front of it was added.
pub fn push_no_plan(
    alloc: Global,
    text: &mut Vec<u8>,
    file: &ListFile<'_>,
    arrivals: Arrivals,
    count: usize,
    planned: &Planned,
) -> Result<(), AllocError>
    ensures { OnOk result (text.new.items ≡ text.old.items ++ no_plan_text file.now arrivals count planned.now) }
{
    push_parts(
        text,
        &[
            Part::Words("does not fit, "),
            Part::Words(arrivals_words(arrivals)),
            Part::Words(": no plan in quanta of "),
        ],
    )?;
    push_spaced(text, file.unit, u128::from(planned.quantum.length))?;
    text.extend_from_slice(b"\n")?;
    push_count(text, count)?;
    push_faults(alloc, text, file, arrivals, planned)
}

/// Adds that none of so many quanta has a plan, where there are several.
fn push_count(text: &mut Vec<u8>, count: usize) -> Result<(), AllocError>
    ensures { OnOk result (text.new.items ≡ text.old.items ++ count_words count) }
{
    if count <= 1 {
        return Ok(());
    }
    push_parts(
        text,
        &[
            Part::Words("of "),
            Part::Number(count as u64),
            Part::Words(" quanta tried none has a plan; this is that with the fewest faults\n"),
        ],
    )
}

/// Adds the messages of its faults.
fn push_faults(
    alloc: Global,
    text: &mut Vec<u8>,
    file: &ListFile<'_>,
    arrivals: Arrivals,
    planned: &Planned,
) -> Result<(), AllocError>
    ensures { OnOk result (text.new.items ≡ text.old.items ++ messages_text file.now.name.now file.now.text.now (fault_messages file.now arrivals planned.now.quantum.length planned.now.faults.items)) }
{
    let quantum = planned.quantum.length;
    let messages = fault_messages(alloc, file, arrivals, quantum, &planned.faults)?;
    messages.push_to(text, file.name, file.text)
}
