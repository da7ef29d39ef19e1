ghost use Rattle.std.specs.Prelude.{◌≡◌, [], IfOk, OnOk};
ghost use Rattle.pf_text.specs.Page.{with_field, with_record};
ghost use Rattle.pf_report.specs.Events.{event_fields, event_record, events_text, number_field};

use pf_desk::snapshot::Snapshot;
use pf_scenario::event::{Event, Numbered};
use pf_text::table::Table;
use std::alloc::{AllocError, Global};

/// Adds the field of a number, which is empty where there is none.
fn show_number(table: &mut Table, number: Option<u64>) -> Result<(), AllocError>
    ensures { OnOk result (table.new ≡ with_field table.old (number_field number)) }
{
    match number {
        Some(number) => table.show_number(number),
        None => table.show_nothing(),
    }
}

/// Adds the record of an event of this number, slot and kind, with the numbers that its kind has.
fn push_fields(
    table: &mut Table,
    id: u64,
    slot: u64,
    kind: &str,
    numbers: &[Option<u64>],
) -> Result<(), AllocError>
    requires { table.old.fields ≡ [] }
    ensures { OnOk result (table.new ≡ with_record table.old (event_fields id slot kind.now numbers.now)) }
{
    table.show_number(id)?;
    table.show_number(slot)?;
    table.show(kind)?;
    for number in numbers {
        show_number(table, *number)?;
    }
    table.end_record()
}

/// Adds the record of an event.
fn push_event(table: &mut Table, numbered: Numbered) -> Result<(), AllocError>
    requires { table.old.fields ≡ [] }
    ensures { OnOk result (table.new ≡ with_record table.old (event_record numbered)) }
{
    let id = numbered.id;
    match numbered.event {
        Event::Join {
            slot,
            task,
            cost,
            period,
            early,
        } => {
            let numbers = [
                Some(task),
                Some(cost),
                Some(period),
                Some(early),
                None,
                None,
            ];
            push_fields(table, id, slot, "join", &numbers)
        }
        Event::Leave { slot, task } => {
            let numbers = [Some(task), None, None, None, None, None];
            push_fields(table, id, slot, "leave", &numbers)
        }
        Event::Delay { slot, task, by } => {
            let numbers = [Some(task), None, None, None, Some(by), None];
            push_fields(table, id, slot, "delay", &numbers)
        }
        Event::Limit { slot, count } => {
            let numbers = [None, None, None, None, None, Some(count)];
            push_fields(table, id, slot, "limit", &numbers)
        }
    }
}

/// The events held, as a table, by number: of each its slot, its kind and its numbers. A field that its kind doesn't have
/// is empty.
///
/// # Errors
///
/// Where memory is refused.
pub fn events_csv(alloc: Global, snapshot: &Snapshot) -> Result<Vec<u8>, AllocError>
    ensures { IfOk result (λ text. text.items ≡ events_text snapshot.now) }
{
    let mut table = Table::new(alloc);
    table.push_texts(&[
        "event", "slot", "kind", "task", "cost", "period", "early", "by", "count",
    ])?;
    for numbered in snapshot.events() {
        push_event(&mut table, numbered)?;
    }
    table.finish()
}
