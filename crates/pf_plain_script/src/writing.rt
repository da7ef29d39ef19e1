ghost use Rattle.std.specs.Prelude.{◌≡◌, ◌++◌, [], map, OnOk};
ghost use Rattle.std.specs.Fmt.{decimal};
ghost use Rattle.pf_text.specs.Page.{Page, with_record};
ghost use Rattle.pf_plain_script.specs.Written.{change_fields, event_fields, line_fields, settings_fields, strict_fields};

use pf_scenario::change::Change;
use pf_scenario::event::Event;
use pf_script::line::Line;
use pf_script::record::ScriptSettings;
use pf_text::table::Table;
use std::alloc::AllocError;

/// Adds the record of settings, in full.
pub(crate) fn push_settings(table: &mut Table, opening: &ScriptSettings) -> Result<(), AllocError>
    requires { table.old.fields ≡ [] }
    ensures { OnOk result (table.new ≡ with_record table.old (settings_fields opening.now)) }
{
    let settings = opening.settings;
    let processors = u64::from(settings.processors());
    let base = u64::from(settings.base().get());
    table.show("settings")?;
    push_numbers(table, &[processors, base, settings.cap(), opening.every])?;
    table.end_record()
}

/// Adds the record of a line.
pub(crate) fn push_line(table: &mut Table, line: Line) -> Result<(), AllocError>
    requires { table.old.fields ≡ [] }
    ensures { OnOk result (table.new ≡ with_record table.old (line_fields line)) }
{
    match line {
        Line::Edit { change, strict } => {
            if strict {
                table.show("strict")?;
            }
            push_change(table, change)?;
        }
        Line::Steps(count) => {
            table.show("step")?;
            table.show_number(count)?;
        }
    }
    table.end_record()
}

/// Adds the fields of a change.
fn push_change(table: &mut Table, change: Change) -> Result<(), AllocError>
    ensures { OnOk result (table.new ≡ record table.old { fields = table.old.fields ++ change_fields change }) }
{
    match change {
        Change::Insert(event) => push_event(table, event),
        Change::Alter(id, event) => {
            table.show("alter")?;
            table.show_number(id)?;
            push_event(table, event)
        }
        Change::Strike(id) => {
            table.show("strike")?;
            table.show_number(id)
        }
    }
}

/// Adds the fields of an event.
fn push_event(table: &mut Table, event: Event) -> Result<(), AllocError>
    ensures { OnOk result (table.new ≡ record table.old { fields = table.old.fields ++ event_fields event }) }
{
    match event {
        Event::Join {
            slot,
            task,
            cost,
            period,
            early,
        } => {
            table.show("join")?;
            push_numbers(table, &[slot, task, cost, period, early])
        }
        Event::Leave { slot, task } => {
            table.show("leave")?;
            push_numbers(table, &[slot, task])
        }
        Event::Delay { slot, task, by } => {
            table.show("delay")?;
            push_numbers(table, &[slot, task, by])
        }
        Event::Limit { slot, count } => {
            table.show("limit")?;
            push_numbers(table, &[slot, count])
        }
    }
}

/// Adds fields of numbers.
fn push_numbers(table: &mut Table, numbers: &[u64]) -> Result<(), AllocError>
    ensures { OnOk result (table.new ≡ record table.old { fields = table.old.fields ++ map decimal numbers.now }) }
{
    for number in numbers {
        table.show_number(*number)?;
    }
    Ok(())
}
