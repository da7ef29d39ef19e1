ghost use Rattle.std.specs.Prelude.{◌≡◌, ◌++◌, IfOk, OnOk};
ghost use Rattle.pf_vocabulary.specs.Names.Names.{name_of};
ghost use Rattle.pf_fit_text.specs.Json.{comma_behind, greatest_of, least_of, name_json, task_front, task_json, tasks_from, with_end, with_middle};

use crate::element::push_element;
use crate::keys::{push_key, push_key_or_null, push_signed, push_signed_or_null};
use crate::rows::grow_at;
use pf_tally::extremes::Extremes;
use pf_tally::figures::Figures;
use pf_vocabulary::names::names::Names;
use std::alloc::{AllocError, Global};

/// The key of a task's name, or null where it has none.
fn name_json(alloc: Global, names: &Names, task: u64) -> Result<Vec<u8>, AllocError>
    ensures { IfOk result (λ text. text.items ≡ name_json (name_of names.now task)) }
{
    match names.of_task(task) {
        Some(name) => {
            let mut text = Vec::from_slice(alloc, b",\"name\":\"")?;
            text.extend_from_slice(name.as_bytes())?;
            text.extend_from_slice(b"\"")?;
            Ok(text)
        }
        None => Vec::from_slice(alloc, b",\"name\":null"),
    }
}

/// The keys of a task up to `migrations`.
fn task_front(alloc: Global, f: Figures, grow: Option<u64>) -> Result<Vec<u8>, AllocError>
    ensures { IfOk result (λ text. text.items ≡ task_front f grow) }
{
    let mut text = Vec::new(alloc);
    push_key(alloc, &mut text, "{\"cost\":", u128::from(f.cost))?;
    push_key_or_null(alloc, &mut text, ",\"grow\":", grow)?;
    push_key(alloc, &mut text, ",\"jobs\":", u128::from(f.jobs))?;
    push_signed(alloc, &mut text, ",\"lag_max\":", f.lag.greatest)?;
    push_signed(alloc, &mut text, ",\"lag_min\":", f.lag.least)?;
    push_key(
        alloc,
        &mut text,
        ",\"migrations\":",
        u128::from(f.migrations),
    )?;
    Ok(text)
}

/// After them those up to `quanta`.
fn with_middle(
    alloc: Global,
    front: Vec<u8>,
    names: &Names,
    f: Figures,
) -> Result<Vec<u8>, AllocError>
    ensures { IfOk result (λ text. text.items ≡ with_middle front.items names.now f) }
{
    let mut text = front;
    let name = name_json(alloc, names, u64::from(f.task))?;
    push_key(alloc, &mut text, ",\"missed\":", u128::from(f.missed))?;
    text.extend_from_slice(&name)?;
    push_key(alloc, &mut text, ",\"period\":", u128::from(f.period))?;
    push_key(
        alloc,
        &mut text,
        ",\"preemptions\":",
        u128::from(f.preemptions),
    )?;
    push_key(alloc, &mut text, ",\"quanta\":", u128::from(f.quanta))?;
    Ok(text)
}

/// The greatest of them, where there are some.
fn greatest_of(response: Option<Extremes>) -> Option<i64>
    ensures { result ≡ greatest_of response }
{
    let response = response?;
    Some(response.greatest)
}

/// The least of them, where there are some.
fn least_of(response: Option<Extremes>) -> Option<i64>
    ensures { result ≡ least_of response }
{
    let response = response?;
    Some(response.least)
}

/// After them the others.
fn with_end(alloc: Global, front: Vec<u8>, f: Figures) -> Result<Vec<u8>, AllocError>
    ensures { IfOk result (λ text. text.items ≡ with_end front.items f) }
{
    let mut text = front;
    let greatest = greatest_of(f.response);
    let least = least_of(f.response);
    push_signed_or_null(alloc, &mut text, ",\"response_max\":", greatest)?;
    push_signed_or_null(alloc, &mut text, ",\"response_min\":", least)?;
    push_key(
        alloc,
        &mut text,
        ",\"tardiness_max\":",
        u128::from(f.tardiness),
    )?;
    push_key(alloc, &mut text, ",\"task\":", u128::from(f.task))?;
    push_element(&mut text, "}")?;
    Ok(text)
}

/// A task as an object.
#[tactic(auto, unfolding(crate::specs::Json::task_json))]
fn task_json(
    alloc: Global,
    names: &Names,
    f: Figures,
    grow: Option<u64>,
) -> Result<Vec<u8>, AllocError>
    ensures { IfOk result (λ text. text.items ≡ task_json names.now f grow) }
{
    let front = task_front(alloc, f, grow)?;
    let text = with_middle(alloc, front, names, f)?;
    with_end(alloc, text, f)
}

/// Appends a comma, but before the first.
fn push_comma(text: &mut Vec<u8>, k: usize) -> Result<(), AllocError>
    ensures { OnOk result (text.new.items ≡ text.old.items ++ comma_behind k) }
{
    if k == 0 {
        Ok(())
    } else {
        push_element(text, ",")
    }
}

/// The tasks as objects with commas between them.
pub(crate) fn tasks_json(
    alloc: Global,
    names: &Names,
    grows: &[Option<u64>],
    figures: &[Figures],
) -> Result<Vec<u8>, AllocError>
    ensures { IfOk result (λ text. text.items ≡ tasks_from names.now grows.now 0 figures.now) }
{
    let mut text = Vec::new(alloc);
    for (k, task) in figures.iter().enumerate() {
        let object = task_json(alloc, names, *task, grow_at(grows, k))?;
        push_comma(&mut text, k)?;
        text.extend_from_slice(&object)?;
    }
    Ok(text)
}
