ghost use Rattle.std.specs.Prelude.{◌≡◌, ◌<◌, ◌≤◌, ◌^◌, All, IfOk, IfSome};
ghost use Rattle.pf_fit_text.specs.Text.{fit_text, front_text, table_text, tasks_text};

use crate::carried::Carried;
use crate::lines::{counts_line, is_proved_in, overload_text, proved_text, top_lines};
use crate::rows::table_rows;
use crate::worst_line::worst_line;
use pf_text::columns::columns::push_columns;
use pf_verdict::findings::Findings;
use pf_verdict::totals::totals_of;
use pf_vocabulary::names::titles::Titles;
use std::alloc::{AllocError, Global};

/// The table and the last line.
#[tactic(auto, unfolding(crate::specs::Text::table_text))]
fn table_text(alloc: Global, findings: &Findings, titles: &Titles) -> Result<Vec<u8>, AllocError>
    requires { All (λ f. 1 ≤ f.period) findings.now.figures }
    ensures { IfOk result (λ text. text.items ≡ table_text titles.now findings.now) }
{
    let rows = table_rows(alloc, findings, titles)?;
    let last = worst_line(alloc, &titles.names, &findings.figures)?;
    let mut text = Vec::from_slice(alloc, b"\n")?;
    push_columns(alloc, &mut text, &rows)?;
    text.extend_from_slice(b"\n")?;
    text.extend_from_slice(&last)?;
    Ok(text)
}

/// These, where there is a task.
fn tasks_text(alloc: Global, findings: &Findings, titles: &Titles) -> Result<Vec<u8>, AllocError>
    requires { All (λ f. 1 ≤ f.period) findings.now.figures }
    ensures { IfOk result (λ text. text.items ≡ tasks_text titles.now findings.now findings.now.figures) }
{
    if findings.figures.is_empty() {
        Ok(Vec::new(alloc))
    } else {
        table_text(alloc, findings, titles)
    }
}

/// The verdict, the tightest slot and the counts.
#[tactic(auto, unfolding(crate::specs::Text::front_text))]
fn front_text(
    alloc: Global,
    carried: Carried,
    joins: Option<u128>,
    findings: &Findings,
) -> Result<Vec<u8>, AllocError>
    requires base { 1 ≤ carried.base }
    requires joins { IfSome joins (λ j. j < 2 ^ 100) }
    ensures { IfOk result (λ text. text.items ≡ front_text carried joins findings.now) }
{
    let missed = totals_of(&findings.figures).missed;
    let counts = counts_line(
        alloc,
        carried.now,
        findings.refused,
        findings.denied,
        findings.unreached,
        missed,
    )?;
    let tightest = findings.strain.tightest;
    top_lines(alloc, carried, joins, findings.verdict, &counts, tightest)
}

/// What was found of the slots stepped, as text: the verdict, the tightest slot, and how much was refused, denied, not reached
/// and missed; what all joins held ask for together, where `joins` has their units; `lists`, which tell what; the overload and
/// how late it can have made a window; what is proved; a table of the tasks; and those that came off worst.
///
/// # Errors
///
/// Where memory is refused.
#[tactic(auto, unfolding(crate::specs::Text::fit_text))]
pub fn fit_text(
    alloc: Global,
    carried: Carried,
    joins: Option<u128>,
    titles: &Titles,
    findings: &Findings,
    lists: &[u8],
) -> Result<Vec<u8>, AllocError>
    requires base { 1 ≤ carried.base }
    requires joins { IfSome joins (λ j. j < 2 ^ 100) }
    requires units { findings.now.units < 2 ^ 100 }
    requires periods { All (λ f. 1 ≤ f.period) findings.now.figures }
    ensures { IfOk result (λ text. text.items ≡ fit_text carried joins titles.now findings.now lists.now) }
{
    let base = carried.base;
    let strain = findings.strain;
    let overload = overload_text(alloc, base, strain.first, strain.above, findings.units)?;
    let proved = proved_text(alloc, is_proved_in(carried.now, strain), findings.carries)?;
    let tasks = tasks_text(alloc, findings, titles)?;
    let mut text = front_text(alloc, carried, joins, findings)?;
    text.extend_from_slice(lists)?;
    text.extend_from_slice(&overload)?;
    text.extend_from_slice(&proved)?;
    text.extend_from_slice(&tasks)?;
    Ok(text)
}
