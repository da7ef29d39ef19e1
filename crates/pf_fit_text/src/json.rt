ghost use Rattle.std.specs.Prelude.{◌≡◌, ◌++◌, ◌≤◌, IfOk, OnOk};
ghost use Rattle.pf_fit_text.specs.Json.{fit_json, free_json, front_json, length_json, level_json, overload_json, overloaded_json, slot_json, task_of_rated, tightest_json, with_findings, with_overload, with_proofs, with_proved, with_slots, with_tasks, with_tightest, with_verdict, worst_json, worst_object, worst_tasks};

use crate::arrays::Arrays;
use crate::carried::Carried;
use crate::element::push_element;
use crate::keys::{push_key, push_key_or_null, push_truth};
use crate::lines::{is_proved_in, verdict_word};
use crate::tasks_json::tasks_json;
use pf_tally::figures::Figures;
use pf_tally::level::Level;
use pf_verdict::findings::Findings;
use pf_verdict::totals::{Totals, totals_of};
use pf_verdict::worst::{Rated, worst_lag, worst_response};
use pf_vocabulary::names::slot_length::SlotLength;
use pf_vocabulary::names::titles::Titles;
use std::alloc::{AllocError, Global};

/// Appends the free units of a slot.
#[tactic(auto, unfolding(crate::specs::Json::free_json))]
fn push_free(alloc: Global, text: &mut Vec<u8>, level: Level) -> Result<(), AllocError>
    ensures { OnOk result (text.new.items ≡ text.old.items ++ free_json level) }
{
    if level.room < level.load {
        let units = level.load - level.room;
        push_key(alloc, text, "{\"free\":-", u128::from(units))
    } else {
        let units = level.room - level.load;
        push_key(alloc, text, "{\"free\":", u128::from(units))
    }
}

/// A slot with what it is asked for and has.
#[tactic(auto, unfolding(crate::specs::Json::level_json))]
fn level_json(alloc: Global, base: u64, level: Level) -> Result<Vec<u8>, AllocError>
    requires { 1 ≤ base }
    ensures { IfOk result (λ text. text.items ≡ level_json base level) }
{
    let count = level.room / base;
    let mut text = Vec::new(alloc);
    push_free(alloc, &mut text, level)?;
    push_key(alloc, &mut text, ",\"load\":", u128::from(level.load))?;
    push_key(alloc, &mut text, ",\"processors\":", u128::from(count))?;
    push_key(alloc, &mut text, ",\"room\":", u128::from(level.room))?;
    push_key(alloc, &mut text, ",\"slot\":", u128::from(level.slot))?;
    push_element(&mut text, "}")?;
    Ok(text)
}

/// The tightest slot, or null.
#[tactic(auto, unfolding(crate::specs::Json::tightest_json))]
fn tightest_json(alloc: Global, base: u64, tightest: Option<Level>) -> Result<Vec<u8>, AllocError>
    requires { 1 ≤ base }
    ensures { IfOk result (λ text. text.items ≡ tightest_json base tightest) }
{
    match tightest {
        Some(level) => level_json(alloc, base, level),
        None => Vec::from_slice(alloc, b"null"),
    }
}

/// An overload.
#[tactic(auto, unfolding(crate::specs::Json::overload_json))]
fn overload_json(
    alloc: Global,
    base: u64,
    first: u64,
    above: u64,
    units: u128,
) -> Result<Vec<u8>, AllocError>
    requires { 1 ≤ base }
    ensures { IfOk result (λ text. text.items ≡ overload_json base first above units) }
{
    let late = units / u128::from(base);
    let mut text = Vec::new(alloc);
    push_key(alloc, &mut text, "{\"first\":", u128::from(first))?;
    push_key(alloc, &mut text, ",\"late\":", late)?;
    push_key(alloc, &mut text, ",\"slots\":", u128::from(above))?;
    push_key(alloc, &mut text, ",\"units\":", units)?;
    push_element(&mut text, "}")?;
    Ok(text)
}

/// The overload, or null.
#[tactic(auto, unfolding(crate::specs::Json::overloaded_json))]
fn overloaded_json(
    alloc: Global,
    base: u64,
    first: Option<u64>,
    above: u64,
    units: u128,
) -> Result<Vec<u8>, AllocError>
    requires { 1 ≤ base }
    ensures { IfOk result (λ text. text.items ≡ overloaded_json base first above units) }
{
    match first {
        Some(first) => overload_json(alloc, base, first, above, units),
        None => Vec::from_slice(alloc, b"null"),
    }
}

/// How long a slot is.
#[tactic(auto, unfolding(crate::specs::Json::length_json))]
fn length_json(alloc: Global, slot: SlotLength) -> Result<Vec<u8>, AllocError>
    ensures { IfOk result (λ text. text.items ≡ length_json slot) }
{
    let mut text = Vec::new(alloc);
    push_key(alloc, &mut text, "{\"length\":", u128::from(slot.length))?;
    push_element(&mut text, ",\"unit\":\"")?;
    push_element(&mut text, slot.unit.word())?;
    push_element(&mut text, "\"}")?;
    Ok(text)
}

/// How long a slot is, or null.
#[tactic(auto, unfolding(crate::specs::Json::slot_json))]
fn slot_json(alloc: Global, slot: Option<SlotLength>) -> Result<Vec<u8>, AllocError>
    ensures { IfOk result (λ text. text.items ≡ slot_json slot) }
{
    match slot {
        Some(slot) => length_json(alloc, slot),
        None => Vec::from_slice(alloc, b"null"),
    }
}

/// The task, where there is one.
fn task_of_rated(rated: Option<Rated>) -> Option<u64>
    ensures { result ≡ task_of_rated rated }
{
    let rated = rated?;
    Some(u64::from(rated.task))
}

/// The task with the worst lag, the sums, and the task with the worst response.
#[tactic(auto, unfolding(crate::specs::Json::worst_object))]
fn worst_object(
    alloc: Global,
    lag: Option<u64>,
    totals: Totals,
    response: Option<u64>,
) -> Result<Vec<u8>, AllocError>
    ensures { IfOk result (λ text. text.items ≡ worst_object lag totals response) }
{
    let mut text = Vec::new(alloc);
    push_key_or_null(alloc, &mut text, "{\"lag\":", lag)?;
    push_key(alloc, &mut text, ",\"migrations\":", totals.migrations)?;
    push_key(alloc, &mut text, ",\"preemptions\":", totals.preemptions)?;
    push_key_or_null(alloc, &mut text, ",\"response\":", response)?;
    push_element(&mut text, "}")?;
    Ok(text)
}

/// That of these tasks.
fn worst_tasks(alloc: Global, figures: &[Figures]) -> Result<Vec<u8>, AllocError>
    ensures { IfOk result (λ text. text.items ≡ worst_tasks figures.now) }
{
    let lag = task_of_rated(worst_lag(figures));
    let response = task_of_rated(worst_response(figures));
    worst_object(alloc, lag, totals_of(figures), response)
}

/// The same, or null where there is no task.
#[tactic(auto, unfolding(crate::specs::Json::worst_json))]
fn worst_json(alloc: Global, figures: &[Figures]) -> Result<Vec<u8>, AllocError>
    ensures { IfOk result (λ text. text.items ≡ worst_json figures.now) }
{
    if figures.is_empty() {
        Vec::from_slice(alloc, b"null")
    } else {
        worst_tasks(alloc, figures)
    }
}

/// The keys up to `now`.
fn front_json(alloc: Global, carried: Carried, arrays: &Arrays) -> Result<Vec<u8>, AllocError>
    ensures { IfOk result (λ text. text.items ≡ front_json carried arrays.now) }
{
    let mut text = Vec::new(alloc);
    push_key(alloc, &mut text, "{\"base\":", u128::from(carried.base))?;
    push_key(alloc, &mut text, ",\"cap\":", u128::from(carried.cap))?;
    push_key(
        alloc,
        &mut text,
        ",\"commands\":",
        u128::from(carried.commands),
    )?;
    push_element(&mut text, ",\"denied\":")?;
    text.extend_from_slice(&arrays.denied)?;
    push_key(alloc, &mut text, ",\"events\":", u128::from(carried.events))?;
    push_element(&mut text, ",\"missed\":")?;
    text.extend_from_slice(&arrays.missed)?;
    push_key(alloc, &mut text, ",\"now\":", u128::from(carried.now))?;
    Ok(text)
}

/// After them those up to `processors`.
fn with_overload(
    alloc: Global,
    front: Vec<u8>,
    carried: Carried,
    findings: &Findings,
) -> Result<Vec<u8>, AllocError>
    requires { 1 ≤ carried.base }
    ensures { IfOk result (λ text. text.items ≡ with_overload front.items carried findings.now) }
{
    let strain = findings.strain;
    let overloaded = overloaded_json(
        alloc,
        carried.base,
        strain.first,
        strain.above,
        findings.units,
    )?;
    let mut text = front;
    push_element(&mut text, ",\"overloaded\":")?;
    text.extend_from_slice(&overloaded)?;
    push_key(
        alloc,
        &mut text,
        ",\"processors\":",
        u128::from(carried.processors),
    )?;
    Ok(text)
}

/// After them what is proved, and what was refused.
fn with_proofs(
    alloc: Global,
    front: Vec<u8>,
    run: bool,
    settings: bool,
    refused: &[u8],
) -> Result<Vec<u8>, AllocError>
    ensures { IfOk result (λ text. text.items ≡ with_proofs front.items run settings refused.now) }
{
    let mut text = front;
    push_truth(alloc, &mut text, ",\"proved\":{\"run\":", run)?;
    push_truth(alloc, &mut text, ",\"settings\":", settings)?;
    push_element(&mut text, "},\"refused\":")?;
    text.extend_from_slice(refused)?;
    Ok(text)
}

/// That of these findings.
fn with_proved(
    alloc: Global,
    front: Vec<u8>,
    carried: Carried,
    findings: &Findings,
    arrays: &Arrays,
) -> Result<Vec<u8>, AllocError>
    ensures { IfOk result (λ text. text.items ≡ with_proved front.items carried findings.now arrays.now) }
{
    let run = is_proved_in(carried.now, findings.strain);
    with_proofs(alloc, front, run, findings.carries, &arrays.refused)
}

/// After them the length of a slot and the tasks.
fn with_tasks(
    alloc: Global,
    front: Vec<u8>,
    titles: &Titles,
    findings: &Findings,
) -> Result<Vec<u8>, AllocError>
    ensures { IfOk result (λ text. text.items ≡ with_tasks front.items titles.now findings.now) }
{
    let slot = slot_json(alloc, titles.slot)?;
    let tasks = tasks_json(alloc, &titles.names, &findings.grows, &findings.figures)?;
    let mut text = front;
    push_element(&mut text, ",\"slot\":")?;
    text.extend_from_slice(&slot)?;
    push_element(&mut text, ",\"tasks\":[")?;
    text.extend_from_slice(&tasks)?;
    Ok(text)
}

/// After them the tightest slot, and how many events are not reached.
fn with_slots(
    alloc: Global,
    front: Vec<u8>,
    tightest: &[u8],
    unreached: u64,
) -> Result<Vec<u8>, AllocError>
    ensures { IfOk result (λ text. text.items ≡ with_slots front.items tightest.now unreached) }
{
    let mut text = front;
    push_element(&mut text, "],\"tightest\":")?;
    text.extend_from_slice(tightest)?;
    push_key(alloc, &mut text, ",\"unreached\":", u128::from(unreached))?;
    Ok(text)
}

/// Those of these findings.
fn with_tightest(
    alloc: Global,
    front: Vec<u8>,
    carried: Carried,
    findings: &Findings,
) -> Result<Vec<u8>, AllocError>
    requires { 1 ≤ carried.base }
    ensures { IfOk result (λ text. text.items ≡ with_tightest front.items carried findings.now) }
{
    let tightest = tightest_json(alloc, carried.base, findings.strain.tightest)?;
    with_slots(alloc, front, &tightest, findings.unreached)
}

/// And after them the last two.
fn with_verdict(alloc: Global, front: Vec<u8>, findings: &Findings) -> Result<Vec<u8>, AllocError>
    ensures { IfOk result (λ text. text.items ≡ with_verdict front.items findings.now) }
{
    let worst = worst_json(alloc, &findings.figures)?;
    let mut text = front;
    push_element(&mut text, ",\"verdict\":\"")?;
    push_element(&mut text, verdict_word(findings.verdict))?;
    push_element(&mut text, "\",\"worst\":")?;
    text.extend_from_slice(&worst)?;
    push_element(&mut text, "}\n")?;
    Ok(text)
}

/// All that stands after `refused`.
fn with_findings(
    alloc: Global,
    front: Vec<u8>,
    carried: Carried,
    titles: &Titles,
    findings: &Findings,
) -> Result<Vec<u8>, AllocError>
    requires { 1 ≤ carried.base }
    ensures { IfOk result (λ text. text.items ≡ with_findings front.items carried titles.now findings.now) }
{
    let text = with_tasks(alloc, front, titles, findings)?;
    let text = with_tightest(alloc, text, carried, findings)?;
    with_verdict(alloc, text, findings)
}

/// What was found of a script that came to this, as one JSON object on a line: compact, its keys in byte order. The arrays
/// tell what was refused, denied and missed.
///
/// # Errors
///
/// Where memory is refused.
#[tactic(auto, unfolding(crate::specs::Json::fit_json))]
pub fn fit_json(
    alloc: Global,
    carried: Carried,
    titles: &Titles,
    findings: &Findings,
    arrays: &Arrays,
) -> Result<Vec<u8>, AllocError>
    requires { 1 ≤ carried.base }
    ensures { IfOk result (λ text. text.items ≡ fit_json carried titles.now findings.now arrays.now) }
{
    let front = front_json(alloc, carried, arrays)?;
    let text = with_overload(alloc, front, carried, findings)?;
    let text = with_proved(alloc, text, carried, findings, arrays)?;
    with_findings(alloc, text, carried, titles, findings)
}
