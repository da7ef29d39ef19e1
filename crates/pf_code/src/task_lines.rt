ghost use Rattle.std.specs.Prelude.{◌≡◌, ◌++◌, ◌+◌, ◌^◌, ◌<◌, drop, length, map, nat_lt, option_map, OnOk};
ghost use Rattle.std.specs.List.{list_any};
ghost use Rattle.pf_code.specs.Parts.{part_text};
ghost use Rattle.pf_code.specs.Tasks.{bound_of, bound_words, lines_among, name_words, number_words, own_symbol, remark_text, task_line, tasks_text, time_words, type_line, type_words, weight_words};

use crate::outline::{Outline, nanoseconds_of};
use crate::parts::{Part, push_parts};
use crate::tasks::{count_alike, own_symbols};
use pf_tally::admitted::Admitted;
use pf_vocabulary::names::name::Name;
use pf_vocabulary::names::names::Names;
use pf_vocabulary::names::slot_length::SlotLength;
use pf_weight::weight::Weight;
use std::alloc::{AllocError, Global};

/// Within so many slots of its arrival a job is done.
fn bound_of(weight: Weight) -> u64
    ensures value { result ≡ bound_of weight }
    ensures small { result < 2 ^ 32 }
{
    let period = weight.period();
    period + (period - 1).div_ceil(weight.cost()) + 1
}

/// Adds the bound, where the table repeats.
fn push_bound(
    text: &mut Vec<u8>,
    slot: SlotLength,
    weight: Weight,
    span: Option<u64>,
) -> Result<(), AllocError>
    ensures { OnOk result (text.new.items ≡ text.old.items ++ bound_words slot weight span) }
{
    match span {
        Some(_) => push_parts(
            text,
            &[
                Part::Words(", done within "),
                Part::Wide(u128::from(bound_of(weight)) * nanoseconds_of(slot)),
                Part::Words(" ns"),
            ],
        ),
        None => Ok(()),
    }
}

/// Adds period and bound, where the slot's length is told.
fn push_times(
    text: &mut Vec<u8>,
    slot: Option<SlotLength>,
    weight: Weight,
    span: Option<u64>,
) -> Result<(), AllocError>
    ensures { OnOk result (text.new.items ≡ text.old.items ++ time_words slot weight span) }
{
    match slot {
        Some(slot) => {
            push_parts(
                text,
                &[
                    Part::Words(", each "),
                    Part::Wide(u128::from(weight.period()) * nanoseconds_of(slot)),
                    Part::Words(" ns"),
                ],
            )?;
            push_bound(text, slot, weight, span)
        }
        None => Ok(()),
    }
}

/// Adds the name of a task, where it has one.
fn push_name(text: &mut Vec<u8>, name: Option<&Name>) -> Result<(), AllocError>
    ensures { OnOk result (text.new.items ≡ text.old.items ++ name_words (option_map (λ n. n.now) name.entry)) }
{
    match name {
        Some(name) => push_parts(text, &[Part::Bytes(name.as_bytes()), Part::Words(": ")]),
        None => Ok(()),
    }
}

/// Adds symbol and number of a task.
fn push_symbol<'a>(
    text: &mut Vec<u8>,
    capitals: &'a [u8],
    symbol: Part<'a>,
    task: u64,
    comma: &'a str,
) -> Result<(), AllocError>
    ensures { OnOk result (text.new.items ≡ text.old.items ++ number_words capitals.now (part_text symbol.entry) task comma.now) }
{
    push_parts(
        text,
        &[
            Part::Words("    "),
            Part::Bytes(capitals),
            Part::Words("_TASK_"),
            symbol,
            Part::Words(" = "),
            Part::Number(task),
            Part::Words(comma),
            Part::Words(" /* "),
        ],
    )
}

/// Adds the weight of a task.
fn push_weight(text: &mut Vec<u8>, weight: Weight) -> Result<(), AllocError>
    ensures { OnOk result (text.new.items ≡ text.old.items ++ weight_words weight) }
{
    push_parts(
        text,
        &[
            Part::Number(weight.cost()),
            Part::Words(" of "),
            Part::Number(weight.period()),
            Part::Words(" slots"),
        ],
    )
}

/// Adds what the comment of a task tells.
fn push_remark(
    text: &mut Vec<u8>,
    outline: Outline,
    names: &Names,
    task: Admitted,
) -> Result<(), AllocError>
    ensures { OnOk result (text.new.items ≡ text.old.items ++ remark_text outline names.now task) }
{
    push_name(text, names.of_task(task.task))?;
    push_weight(text, task.weight)?;
    push_times(
        text,
        outline.slot,
        task.weight,
        outline.repetition.known_span(),
    )?;
    text.extend_from_slice(b" */\n")
}

/// Adds the line of a task.
#[tactic(auto, unfolding(crate::specs::Tasks::task_line))]
fn push_line<'a>(
    text: &mut Vec<u8>,
    capitals: &'a [u8],
    outline: Outline,
    names: &Names,
    symbol: Part<'a>,
    task: Admitted,
    comma: &'a str,
) -> Result<(), AllocError>
    ensures { OnOk result (text.new.items ≡ text.old.items ++ task_line capitals.now outline names.now (part_text symbol.entry) task comma.now) }
{
    push_symbol(text, capitals, symbol, task.task, comma)?;
    push_remark(text, outline, names, task)
}

/// Adds the line of the task at a place, where these are the symbols that the tasks would have alone.
fn push_task(
    text: &mut Vec<u8>,
    capitals: &[u8],
    outline: Outline,
    names: &Names,
    symbols: &[Vec<u8>],
    tasks: &[Admitted],
    at: usize,
) -> Result<(), AllocError>
    requires within { at < length tasks.now }
    requires symbols { map (λ symbol. symbol.items) symbols.now ≡ map (own_symbol names.now) tasks.now }
    ensures { OnOk result (text.new.items ++ lines_among capitals.now outline names.now tasks.now (drop (at + 1) tasks.now)
        ≡ text.old.items ++ lines_among capitals.now outline names.now tasks.now (drop at tasks.now)) }
{
    let task = tasks[at];
    let own = symbols[at].as_slice();
    let symbol = if count_alike(symbols, own) > 1 {
        Part::Number(task.task)
    } else {
        Part::Bytes(own)
    };
    let comma = if at + 1 < tasks.len() { "," } else { "" };
    push_line(text, capitals, outline, names, symbol, task, comma)
}

/// Adds the lines of the tasks.
fn push_lines(
    alloc: Global,
    text: &mut Vec<u8>,
    capitals: &[u8],
    outline: Outline,
    names: &Names,
    tasks: &[Admitted],
) -> Result<(), AllocError>
    ensures { OnOk result (text.new.items ≡ text.old.items ++ lines_among capitals.now outline names.now tasks.now tasks.now) }
{
    let symbols = own_symbols(alloc, names, tasks)?;
    for at in 0..tasks.len() {
        push_task(text, capitals, outline, names, &symbols, tasks, at)?;
    }
    Ok(())
}

/// Adds an enum of the tasks, where there are any.
pub(crate) fn push_tasks(
    alloc: Global,
    text: &mut Vec<u8>,
    capitals: &[u8],
    outline: Outline,
    names: &Names,
    tasks: &[Admitted],
) -> Result<(), AllocError>
    ensures { OnOk result (text.new.items ≡ text.old.items ++ tasks_text capitals.now outline names.now tasks.now) }
{
    if tasks.is_empty() {
        return Ok(());
    }
    text.extend_from_slice(b"enum {\n")?;
    push_lines(alloc, text, capitals, outline, names, tasks)?;
    text.extend_from_slice(b"};\n")
}

/// Whether a task has a number above those of a byte.
fn has_wide(tasks: &[Admitted]) -> bool
    ensures { result ≡ list_any (λ j. nat_lt 255 j.task) tasks.now }
{
    tasks.iter().any(|task| task.task > 255)
}

/// The words before the smallest type that has the numbers of these tasks.
fn type_words(tasks: &[Admitted]) -> &'static str
    ensures { result.now ≡ type_words tasks.now }
{
    if has_wide(tasks) {
        "typedef uint16_t "
    } else {
        "typedef uint8_t "
    }
}

/// Adds the line of the smallest type that has the numbers of these tasks.
pub(crate) fn push_type(
    text: &mut Vec<u8>,
    symbol: &[u8],
    tasks: &[Admitted],
) -> Result<(), AllocError>
    ensures { OnOk result (text.new.items ≡ text.old.items ++ type_line symbol.now tasks.now) }
{
    push_parts(
        text,
        &[
            Part::Words(type_words(tasks)),
            Part::Bytes(symbol),
            Part::Words("_task;\n"),
        ],
    )
}
