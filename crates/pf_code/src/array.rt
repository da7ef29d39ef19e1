ghost use Rattle.std.specs.Prelude.{◌≡◌, ◌++◌, ◌-◌, ◌≤◌, true, if◌then◌else◌, ◌==◌, [], IfOk, OnOk};
ghost use Rattle.pf_vocabulary.specs.Options.Ranges.{is_within};
ghost use Rattle.pf_code.specs.Array.{c_text, declaration_line, header_text, row_text, text_between};
ghost use Rattle.pf_code.specs.Outline.{outline_of};
ghost use Rattle.pf_code.specs.Repetition.{admitted_in};
ghost use Rattle.pf_code.specs.Span.{are_owed_whole};
ghost use Rattle.pf_code.specs.Symbol.{capitals};

use crate::header::{push_comments, push_constants};
use crate::outline::Outline;
use crate::parts::{Part, push_parts};
use crate::repetition::repetition_with;
use crate::rows::{RowLines, push_nobody};
use crate::span::least_span;
use crate::symbol::Symbol;
use crate::task_lines::{push_tasks, push_type};
use crate::tasks::admitted_in;
use pf_desk::snapshot::Snapshot;
use pf_tally::admitted::Admitted;
use pf_text::pieces::{Chain, Whole};
use pf_vocabulary::names::names::Names;
use pf_vocabulary::names::titles::Titles;
use pf_vocabulary::options::slot_range::SlotRange;
use std::alloc::{AllocError, Global};

/// A word with its letters in capitals.
fn capitals(alloc: Global, word: &[u8]) -> Result<Vec<u8>, AllocError>
    ensures { IfOk result (λ text. text.items ≡ capitals word.now) }
{
    let mut text = Vec::with_capacity(alloc, word.len())?;
    for byte in word {
        text.push(byte.to_ascii_uppercase())?;
    }
    Ok(text)
}

/// Adds the line that opens the array, which has a row where there is no slot, too.
fn push_declaration(
    text: &mut Vec<u8>,
    symbol: &[u8],
    slots: u64,
    processors: u32,
) -> Result<(), AllocError>
    ensures { OnOk result (text.new.items ≡ text.old.items ++ declaration_line symbol.now slots processors) }
{
    push_parts(
        text,
        &[
            Part::Words("static const "),
            Part::Bytes(symbol),
            Part::Words("_task "),
            Part::Bytes(symbol),
            Part::Words("_schedule["),
            Part::Number(slots.max(1)),
            Part::Words("]["),
            Part::Number(u64::from(processors)),
            Part::Words("] = {\n"),
        ],
    )
}

/// What stands before the rows.
#[tactic(auto, unfolding(crate::specs::Array::header_text))]
fn header(
    alloc: Global,
    symbol: &[u8],
    outline: Outline,
    names: &Names,
    tasks: &[Admitted],
) -> Result<Vec<u8>, AllocError>
    ensures { IfOk result (λ text. text.items ≡ header_text symbol.now outline names.now tasks.now) }
{
    let capitals = capitals(alloc, symbol)?;
    let mut text = Vec::new(alloc);
    push_comments(&mut text, outline)?;
    push_constants(&mut text, &capitals, outline)?;
    push_tasks(alloc, &mut text, &capitals, outline, names, tasks)?;
    push_type(&mut text, symbol, tasks)?;
    push_declaration(&mut text, symbol, outline.slots(), outline.processors)?;
    Ok(text)
}

/// What stands before the first row; of no slot a row with nobody stands after it.
fn head(
    alloc: Global,
    symbol: &[u8],
    outline: Outline,
    names: &Names,
    tasks: &[Admitted],
) -> Result<Vec<u8>, AllocError>
    ensures { IfOk result (λ text. text.items ≡ header_text symbol.now outline names.now tasks.now
        ++ (if outline.to - outline.from == 0 then row_text outline.processors [] else [])) }
{
    let mut text = header(alloc, symbol, outline, names, tasks)?;
    if outline.slots() == 0 {
        push_nobody(&mut text, outline.processors)?;
    }
    Ok(text)
}

/// What a table tells of the slots from `from` on and below `to`, where these tasks were admitted.
fn outline_of(
    alloc: Global,
    snapshot: &Snapshot,
    titles: &Titles,
    tasks: &[Admitted],
    from: u64,
    to: u64,
) -> Result<Outline, AllocError>
    requires tasks { tasks.now ≡ admitted_in snapshot.now }
    requires whole { are_owed_whole tasks.now snapshot.now.state.plan.settings.base ≡ true }
    ensures { IfOk result (λ outline. outline ≡ outline_of snapshot.now titles.now from to) }
{
    let settings = snapshot.settings();
    let base = settings.base().get();
    let span = least_span(base, tasks);
    let repetition = repetition_with(alloc, snapshot, span, from, to)?;
    Ok(Outline {
        from,
        to,
        now: snapshot.now(),
        processors: settings.processors(),
        base,
        repetition,
        slot: titles.slot,
    })
}

/// A table in pieces: what stands before its rows, these, and its end.
pub type ArrayPieces<'a> = Chain<Whole, Chain<RowLines<'a>, Whole>>;

/// The table of the slots from `from` on and below `to`.
fn pieces_between<'a>(
    alloc: Global,
    snapshot: &'a Snapshot,
    titles: &Titles,
    symbol: &[u8],
    from: u64,
    to: u64,
) -> Result<ArrayPieces<'a>, AllocError>
    requires order { from ≤ to }
    requires within { to ≤ snapshot.now.state.now }
    ensures { IfOk result (λ pieces. pieces ≡ text_between snapshot.now titles.now symbol.now from to) }
{
    let tasks = admitted_in(alloc, snapshot)?;
    let outline = outline_of(alloc, snapshot, titles, &tasks, from, to)?;
    let head = head(alloc, symbol, outline, &titles.names, &tasks)?;
    let end = Vec::from_slice(alloc, b"};\n#endif\n")?;
    let rows = RowLines::of(snapshot, from, to);
    Ok(Chain::new(Whole::new(head), Chain::new(rows, Whole::new(end))))
}

/// The schedule as a header in C, in pieces. Its array has a row for each slot of a range, in it of each processor the number of
/// the task that it gives the slot to, and 0 where it gives it to nobody; of no slot one row of nobody, as C has no array without a
/// row. All its names begin with the symbol. Before the array stand its constants, the numbers of the tasks, after how many slots
/// it repeats, or why that is not known, and within which time a job of each task is done.
///
/// # Errors
///
/// Where memory is refused.
#[tactic(auto, unfolding(crate::specs::Array::c_text))]
pub fn c_pieces<'a>(
    alloc: Global,
    snapshot: &'a Snapshot,
    titles: &Titles,
    range: SlotRange,
    symbol: &Symbol,
) -> Result<ArrayPieces<'a>, AllocError>
    requires { is_within range snapshot.now.state.now ≡ true }
    ensures { IfOk result (λ pieces. pieces ≡ c_text snapshot.now titles.now range symbol.now) }
{
    let to = range.end(snapshot.now());
    pieces_between(
        alloc,
        snapshot,
        titles,
        symbol.as_bytes(),
        range.first(),
        to,
    )
}
