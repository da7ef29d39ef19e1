ghost use Rattle.std.specs.Prelude.{◌≡◌, ◌++◌, ◌≤◌, [], All, IfOk, IfSome, OnOk};
ghost use Rattle.pf_fit_text.specs.WorstLine.{lag_text, moves_text, response_text, worst_lag_text, worst_line, worst_response_text};

use crate::element::push_element;
use pf_tally::figures::Figures;
use pf_text::columns::decimals::push_cut;
use pf_verdict::totals::{Totals, totals_of};
use pf_verdict::worst::{Rated, worst_lag, worst_response};
use pf_vocabulary::names::names::Names;
use pf_vocabulary::names::titles::label_of;
use std::alloc::{AllocError, Global};

/// A response in the period, and whose.
#[tactic(auto, unfolding(crate::specs::WorstLine::response_text))]
fn response_text(alloc: Global, names: &Names, worst: Rated) -> Result<Vec<u8>, AllocError>
    ensures { IfOk result (λ text. text.items ≡ response_text names.now worst) }
{
    let Rated {
        task,
        value,
        period,
    } = worst;
    let mut text = format!(in alloc; "{value} of {period} (")?.into_bytes();
    let label = label_of(alloc, names, u64::from(task))?;
    push_element(&mut text, label.as_str())?;
    push_element(&mut text, ")")?;
    Ok(text)
}

/// That of the worst task with a job.
fn worst_response_text(
    alloc: Global,
    names: &Names,
    worst: Option<Rated>,
) -> Result<Vec<u8>, AllocError>
    ensures { IfOk result (λ text. text.items ≡ worst_response_text names.now worst) }
{
    match worst {
        Some(worst) => response_text(alloc, names, worst),
        None => Vec::from_slice(alloc, b"-"),
    }
}

/// A lag in quanta, and whose.
#[tactic(auto, unfolding(crate::specs::WorstLine::lag_text))]
fn lag_text(alloc: Global, names: &Names, worst: Rated) -> Result<Vec<u8>, AllocError>
    requires { 1 ≤ worst.period }
    ensures { IfOk result (λ text. text.items ≡ lag_text names.now worst) }
{
    let mut text = Vec::new(alloc);
    push_cut(&mut text, worst.value, worst.period, 3)?;
    push_element(&mut text, " (")?;
    let label = label_of(alloc, names, u64::from(worst.task))?;
    push_element(&mut text, label.as_str())?;
    push_element(&mut text, ")")?;
    Ok(text)
}

/// That of the worst task.
fn worst_lag_text(alloc: Global, names: &Names, worst: Option<Rated>) -> Result<Vec<u8>, AllocError>
    requires { IfSome worst (λ w. 1 ≤ w.period) }
    ensures { IfOk result (λ text. text.items ≡ worst_lag_text names.now worst) }
{
    match worst {
        Some(worst) => lag_text(alloc, names, worst),
        None => Ok(Vec::new(alloc)),
    }
}

/// Appends the sums.
#[tactic(auto, unfolding(crate::specs::WorstLine::moves_text))]
fn push_moves(alloc: Global, text: &mut Vec<u8>, totals: Totals) -> Result<(), AllocError>
    ensures { OnOk result (text.new.items ≡ text.old.items ++ moves_text totals) }
{
    let Totals {
        preemptions,
        migrations,
        ..
    } = totals;
    let words = format!(in alloc; "; {preemptions} preemptions, {migrations} migrations\n")?;
    push_element(text, &words)
}

/// The worst response and the worst lag, and the sums over all tasks.
#[tactic(auto, unfolding(crate::specs::WorstLine::worst_line))]
pub(crate) fn worst_line(
    alloc: Global,
    names: &Names,
    figures: &[Figures],
) -> Result<Vec<u8>, AllocError>
    requires { All (λ f. 1 ≤ f.period) figures.now }
    ensures { IfOk result (λ text. text.items ≡ worst_line names.now figures.now) }
{
    let response = worst_response_text(alloc, names, worst_response(figures))?;
    let lag = worst_lag_text(alloc, names, worst_lag(figures))?;
    let mut text = Vec::from_slice(alloc, b"worst: response ")?;
    text.extend_from_slice(&response)?;
    push_element(&mut text, ", lag ")?;
    text.extend_from_slice(&lag)?;
    push_moves(alloc, &mut text, totals_of(figures))?;
    Ok(text)
}
