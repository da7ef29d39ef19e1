ghost use Rattle.std.specs.Prelude.{◌≡◌, ◌++◌, ◌∷◌, [], None, map, string_bytes, IfOk, OnOk};
ghost use Rattle.std.specs.Fmt.{decimal};
ghost use Rattle.pf_why_text.specs.Ranks.{IsSeating, by_text, number_cells, rank_cells, ranks_cells, ranks_heading, ranks_text, seating_of, start_cells};

use crate::answer::{answer_words, subtask_words};
use crate::seating::Seating;
use pf_text::columns::columns::push_columns;
use pf_text::columns::row::Row;
use pf_vocabulary::names::names::Names;
use pf_why::rule::Rule;
use pf_why::subtask::Subtask;
use std::alloc::{AllocError, Global};

/// Adds a cell of these words to a row.
fn push_cell(row: &mut Row, words: String) -> Result<(), AllocError>
    ensures { OnOk result (row.new ≡ row.old ++ string_bytes words ∷ []) }
{
    row.push(words.into_bytes())
}

/// Adds a cell of a number to a row.
fn push_number(alloc: Global, row: &mut Row, number: u64) -> Result<(), AllocError>
    ensures { OnOk result (row.new ≡ row.old ++ decimal number ∷ []) }
{
    push_cell(row, format!(in alloc; "{number}")?)
}

/// The word of the rule that puts x after the one before it.
fn by_word(before: Option<Subtask>, x: Subtask) -> &'static str
    ensures { result.now ≡ by_text before x }
{
    match before {
        Some(y) => Rule::between(y, x).word(),
        None => "-",
    }
}

/// The cells of a rank, a subtask and its window.
fn start_row(alloc: Global, names: &Names, rank: u64, x: Subtask) -> Result<Row, AllocError>
    ensures { IfOk result (λ row. row ≡ start_cells names.now rank x) }
{
    let mut row = Row::new(alloc);
    push_number(alloc, &mut row, rank)?;
    push_cell(&mut row, subtask_words(alloc, names, x.task, x.sub)?)?;
    push_cell(
        &mut row,
        format!(in alloc; "{}..{}", x.release, x.deadline)?,
    )?;
    Ok(row)
}

/// Adds the cells of what the order looks at.
fn push_numbers(alloc: Global, row: &mut Row, x: Subtask) -> Result<(), AllocError>
    ensures { OnOk result (row.new ≡ row.old ++ number_cells x) }
{
    push_number(alloc, row, x.deadline)?;
    push_number(alloc, row, x.bit)?;
    push_number(alloc, row, x.group)
}

/// The row of a rank: `last` is the last that runs, `before` the one before.
fn rank_row(
    alloc: Global,
    names: &Names,
    seating: Seating<'_>,
    last: Option<Subtask>,
    rank: u64,
    before: Option<Subtask>,
    x: Subtask,
) -> Result<Row, AllocError>
    requires { IsSeating seating }
    ensures { IfOk result (λ row. row ≡ rank_cells names.now (seating_of seating.entry) last rank before x) }
{
    let answer = answer_words(alloc, names, seating.slot, last, seating.seat(x), x)?;
    let mut row = start_row(alloc, names, rank, x)?;
    push_numbers(alloc, &mut row, x)?;
    push_cell(&mut row, String::from_str(alloc, by_word(before, x))?)?;
    push_cell(&mut row, answer)?;
    Ok(row)
}

/// Adds a cell for each of these texts.
fn push_texts(alloc: Global, row: &mut Row, texts: &[&str]) -> Result<(), AllocError>
    ensures { OnOk result (row.new ≡ row.old ++ map (λ text. text.now) texts.now) }
{
    for text in texts {
        push_cell(row, String::from_str(alloc, *text)?)?;
    }
    Ok(())
}

/// The headings of a ranking.
fn heading(alloc: Global) -> Result<Row, AllocError>
    ensures { IfOk result (λ row. row ≡ ranks_heading) }
{
    let mut row = Row::new(alloc);
    push_texts(
        alloc,
        &mut row,
        &[
            "rank", "task/sub", "window", "deadline", "bit", "group", "by", "answer",
        ],
    )?;
    Ok(row)
}

/// Adds the rows of a ranking, of which `last` is the last that runs.
fn push_ranks(
    alloc: Global,
    rows: &mut Vec<Row>,
    names: &Names,
    seating: Seating<'_>,
    last: Option<Subtask>,
    ranking: &[Subtask],
) -> Result<(), AllocError>
    requires { IsSeating seating }
    ensures { OnOk result (rows.new.items ≡ rows.old.items ++ ranks_cells names.now (seating_of seating.entry) last 1 None ranking.now) }
{
    let mut before = None;
    let mut rank = 1;
    for x in ranking {
        let row = rank_row(alloc, names, seating, last, rank, before, *x)?;
        rows.push(row)?;
        before = Some(*x);
        rank += 1;
    }
    Ok(())
}

/// Adds a ranking as a table in columns, with its headings; nothing of no subtask. Of each rank the subtask, its window and
/// what the order looks at, the rule that puts it after the one above, and what it does in the slot.
///
/// # Errors
///
/// Where memory is refused: a front of it was added.
pub fn push_ranking(
    alloc: Global,
    text: &mut Vec<u8>,
    names: &Names,
    seating: Seating<'_>,
    ranking: &[Subtask],
) -> Result<(), AllocError>
    requires { IsSeating seating }
    ensures { OnOk result (text.new.items ≡ text.old.items ++ ranks_text names.now (seating_of seating.entry) ranking.now) }
{
    if ranking.is_empty() {
        return Ok(());
    }
    let last = seating.last_of(ranking);
    let mut rows = Vec::new(alloc);
    rows.push(heading(alloc)?)?;
    push_ranks(alloc, &mut rows, names, seating, last, ranking)?;
    push_columns(alloc, text, &rows)
}
