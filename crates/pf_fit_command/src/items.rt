ghost use Rattle.std.specs.Prelude.{◌≡◌, ◌++◌, List, IfOk, OnOk};
ghost use Rattle.std.specs.Option.{option_map, unwrap_or};
ghost use Rattle.pf_scenario.specs.Event.{task_of};
ghost use Rattle.pf_run.specs.Computed.{run_of};
ghost use Rattle.pf_tally.specs.Misses.{misses_of};
ghost use Rattle.pf_tally.specs.declared.miss.Miss.{Miss};
ghost use Rattle.pf_run_notes.specs.Late.{AreLate, firsts_of};
ghost use Rattle.pf_fit_command.specs.Items.{array_text, counted_item, denied_array, denied_item, missed_array, refused_array, with_item};

use pf_desk::snapshot::Snapshot;
use pf_fit_text::elements::{denied_json, missed_json, refused_json};
use pf_notes::reasons::Reasons;
use pf_run::denied::Denied;
use pf_run_notes::late::{LateTasks, late_tasks};
use pf_run_notes::made::Made;
use pf_run_notes::notes::{event_of, join_of};
use pf_scenario::event::Event;
use pf_scenario::scenario::Scenario;
use pf_script_results::refused_record::RefusedRecord;
use pf_tally::miss::Miss;
use std::alloc::{AllocError, Global};

/// Appends an item, after a comma where others stand before it.
fn push_item(items: &mut Vec<u8>, item: &[u8]) -> Result<(), AllocError>
    ensures { OnOk result (items.new.items ≡ with_item items.old.items item.now) }
{
    if !items.is_empty() {
        items.extend_from_slice(b",")?;
    }
    items.extend_from_slice(item)
}

/// An array of these items.
#[tactic(auto, unfolding(crate::specs::Items::array_text))]
fn array_text(alloc: Global, items: &[u8]) -> Result<Vec<u8>, AllocError>
    ensures { IfOk result (λ text. text.items ≡ array_text items.now) }
{
    let mut text = Vec::from_slice(alloc, b"[")?;
    text.extend_from_slice(items)?;
    text.extend_from_slice(b"]")?;
    Ok(text)
}

/// The refused records.
pub(crate) fn refused_array(alloc: Global, records: &[RefusedRecord]) -> Result<Vec<u8>, AllocError>
    ensures { IfOk result (λ text. text.items ≡ refused_array records.now) }
{
    let mut items = Vec::new(alloc);
    for refused in records {
        let item = refused_json(
            alloc,
            refused.place,
            refused.fault,
            refused.event,
            refused.steps,
        )?;
        push_item(&mut items, &item)?;
    }
    array_text(alloc, &items)
}

/// The task of an event; 0 where it has none.
fn task_or_none(event: Event) -> u64
    ensures { result ≡ unwrap_or (task_of event) 0 }
{
    match event.task() {
        Some(task) => task,
        None => 0,
    }
}

/// A denial of the run that the reasons are of.
fn denied_item(
    alloc: Global,
    made: &Made,
    scenario: &Scenario,
    reasons: &Reasons<'_>,
    denied: Denied,
) -> Result<Option<Vec<u8>>, AllocError>
    requires { scenario.now ≡ reasons.now.state.plan }
    ensures { IfOk result (λ item. option_map (λ i. i.items) item ≡ denied_item made.now scenario.now (run_of scenario.now reasons.now.state.now) denied) }
{
    let grounds = reasons.grounds(alloc, denied)?;
    let numbered = event_of(scenario, denied.id);
    let place = made.maker(denied.id);
    match (numbered, place, grounds) {
        (Some(numbered), Some(place), Some(grounds)) => {
            let task = task_or_none(numbered.event);
            let item = denied_json(alloc, place, denied, grounds, task)?;
            Ok(Some(item))
        }
        _ => Ok(None),
    }
}

/// The denials of a snapshot's run.
pub(crate) fn denied_array(
    alloc: Global,
    made: &Made,
    snapshot: &Snapshot,
) -> Result<Vec<u8>, AllocError>
    ensures { IfOk result (λ text. text.items ≡ denied_array made.now snapshot.now.state.plan
        (run_of snapshot.now.state.plan snapshot.now.state.now) snapshot.now.denials) }
{
    let reasons = Reasons::of(alloc, snapshot)?;
    let scenario = snapshot.scenario();
    let denials = snapshot.denials();
    let mut items = Vec::new(alloc);
    for denied in denials {
        let item = denied_item(alloc, made, scenario, &reasons, *denied)?;
        if let Some(item) = item {
            push_item(&mut items, &item)?;
        }
    }
    array_text(alloc, &items)
}

/// The first window that a task missed, of those counted.
fn missed_item(
    alloc: Global,
    made: &Made,
    scenario: &Scenario,
    late: &LateTasks,
    miss: Miss,
) -> Result<Option<Vec<u8>>, AllocError>
    ensures { IfOk result (λ item. option_map (λ i. i.items) item ≡ counted_item made.now scenario.now late.now.counts miss) }
{
    let Some(join) = join_of(scenario, u64::from(miss.task)) else {
        return Ok(None);
    };
    let Some(place) = made.maker(join.id) else {
        return Ok(None);
    };
    let item = missed_json(alloc, place, join.id, miss, late.counts.get(miss.task))?;
    Ok(Some(item))
}

/// The tasks with a missed window, by a table of their counts.
fn late_array(
    alloc: Global,
    made: &Made,
    scenario: &Scenario,
    late: &LateTasks,
) -> Result<Vec<u8>, AllocError>
    ensures { (misses : List Miss) → AreLate misses late.now.firsts.items late.now.counts →
        IfOk result (λ text. text.items ≡ missed_array made.now scenario.now misses) }
{
    let firsts = late.firsts.as_slice();
    let mut items = Vec::new(alloc);
    for miss in firsts {
        let item = missed_item(alloc, made, scenario, late, *miss)?;
        if let Some(item) = item {
            push_item(&mut items, &item)?;
        }
    }
    array_text(alloc, &items)
}

/// The tasks with a missed window in a snapshot's run.
pub(crate) fn missed_array(
    alloc: Global,
    made: &Made,
    snapshot: &Snapshot,
) -> Result<Vec<u8>, AllocError>
    ensures { IfOk result (λ text. text.items ≡ missed_array made.now snapshot.now.state.plan
        (misses_of snapshot.now.state.plan (run_of snapshot.now.state.plan snapshot.now.state.now))) }
{
    let misses = snapshot.misses()?;
    let late = late_tasks(alloc, &misses)?;
    late_array(alloc, made, snapshot.scenario(), &late)
}
