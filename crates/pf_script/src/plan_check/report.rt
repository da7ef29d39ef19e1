ghost use Rattle.std.specs.Prelude.{◌≡◌, ◌++◌, ◌-◌, OnOk, codes};
ghost use Rattle.std.specs.Fmt.{decimal};
ghost use Rattle.pf_script.specs.Fields.{field};
ghost use Rattle.pf_text.specs.Quoted.{quoted};
ghost use Rattle.pf_script.specs.PlanCheck.Reports.{join_fields, named_text, plan_reason_text, plan_report_line};

use crate::check::report::{push_count, push_field, push_outside, push_place};
use crate::fields::Fields;
use crate::plan::fault::{BadRecord, Reason};
use pf_text::numbers::push_number;
use pf_text::quoted::push_quoted;
use std::alloc::AllocError;

/// What is said of a word that names no record.
const NO_RECORD: &str =
    " is no record: settings, slot, name, join, leave, delay, limit, label, alter, strike, strict, step";

/// What is said of a word that names no change.
const NO_CHANGE: &str = " is no change: join, leave, delay, limit, label, alter, strike";

/// Adds the line that tells of a bad record with these fields, with what is shown of the one that is at fault.
#[tactic(auto, unfolding(crate::specs::PlanCheck::Reports::plan_report_line))]
pub fn push_report(text: &mut Vec<u8>, fields: &Fields, bad: BadRecord) -> Result<(), AllocError>
    ensures { OnOk result (text.new.items ≡ text.old.items ++ plan_report_line bad (field fields.now (bad.fault.field - 1))) }
{
    let at = fields.field(bad.fault.field.saturating_sub(1));
    push_place(text, bad.line, bad.number)?;
    push_field(text, bad.fault.field)?;
    text.extend_from_slice(b": ")?;
    push_reason(text, at, bad.fault.reason)?;
    text.extend_from_slice(b"\n")
}

/// Adds why a record is none, of its field that is at fault.
///
/// # Errors
///
/// Where memory is refused: the text is given up.
#[tactic(auto, unfolding(crate::specs::PlanCheck::Reports::plan_reason_text))]
pub fn push_reason(text: &mut Vec<u8>, at: &[u8], reason: Reason) -> Result<(), AllocError>
    ensures { OnOk result (text.new.items ≡ text.old.items ++ plan_reason_text at.now reason) }
{
    match reason {
        Reason::NoRecord => push_shown(text, at, NO_RECORD),
        Reason::NoVersion => push_shown(text, at, " is no version: 1"),
        Reason::NoChange => push_shown(text, at, NO_CHANGE),
        Reason::NoEvent => push_shown(text, at, " is no event: join, leave, delay, limit"),
        Reason::NoSettings => text.extend_from_slice(b"settings are expected"),
        Reason::LateSettings => text.extend_from_slice(
            b"settings come once, before all changes and steps",
        ),
        Reason::LateSlot => text.extend_from_slice(
            b"slot comes once, before all changes and steps",
        ),
        Reason::NoNumber => push_shown(text, at, " is no number of 1 to 15 digits"),
        Reason::NoCap => push_shown(text, at, " is no number of 1 to 15 digits and not full"),
        Reason::Outside { number, most } => push_outside(text, number, most),
        Reason::Fields(count) => push_count(text, count),
        Reason::JoinFields(least) => {
            text.extend_from_slice(join_fields(least).as_bytes())?;
            text.extend_from_slice(b" fields are expected")
        }
        Reason::StepFields => text.extend_from_slice(b"1 or 2 fields are expected"),
        Reason::SettingsFields => text.extend_from_slice(b"3 to 5 fields are expected"),
        Reason::NoUnit => push_shown(text, at, " is no unit: ns, us, ms, s"),
        Reason::HasName(task) => push_named(text, task),
        Reason::NoName => push_shown(
            text,
            at,
            " is no name: a letter, then up to 23 letters, digits, spaces, _ - . +",
        ),
        Reason::NameOf(task) => push_owner(text, at, task),
        Reason::NoTask => push_shown(text, at, " names no task so far"),
        Reason::NoLabel => push_shown(
            text,
            at,
            " is no label: a letter, then up to 23 letters, digits, spaces, _ - . +",
        ),
        Reason::LabelTaken => push_shown(text, at, " labels an event already"),
        Reason::LabelUnknown => push_shown(text, at, " labels no event so far"),
    }
}

/// A field in quotes, and what is said of it.
fn push_shown(text: &mut Vec<u8>, at: &[u8], why: &str) -> Result<(), AllocError>
    ensures { OnOk result (text.new.items ≡ text.old.items ++ (quoted at.now ++ why.now)) }
{
    push_quoted(text, at)?;
    text.extend_from_slice(why.as_bytes())
}

/// A field in quotes, which is the name of this task.
fn push_owner(text: &mut Vec<u8>, at: &[u8], task: u64) -> Result<(), AllocError>
    ensures { OnOk result (text.new.items
        ≡ text.old.items ++ ((quoted at.now ++ codes " is the name of task ") ++ (decimal task ++ codes " already"))) }
{
    push_shown(text, at, " is the name of task ")?;
    push_already(text, task)
}

/// That a task has a name already.
fn push_named(text: &mut Vec<u8>, task: u64) -> Result<(), AllocError>
    ensures { OnOk result (text.new.items ≡ text.old.items ++ named_text task) }
{
    text.extend_from_slice(b"task ")?;
    push_has_name(text, task)
}

/// The number of a task, and that it has a name already.
fn push_has_name(text: &mut Vec<u8>, task: u64) -> Result<(), AllocError>
    ensures { OnOk result (text.new.items ≡ text.old.items ++ (decimal task ++ codes " has a name already")) }
{
    push_number(text, task)?;
    text.extend_from_slice(b" has a name already")
}

/// The number of a task, and that it has something already.
fn push_already(text: &mut Vec<u8>, task: u64) -> Result<(), AllocError>
    ensures { OnOk result (text.new.items ≡ text.old.items ++ (decimal task ++ codes " already")) }
{
    push_number(text, task)?;
    text.extend_from_slice(b" already")
}

/// How many fields a join has whose fewest are these.
fn join_fields(least: usize) -> &'static str
    ensures { result.now ≡ join_fields least }
{
    match least {
        5 => "5 or 6",
        6 => "6 or 7",
        7 => "7 or 8",
        _ => "8 or 9",
    }
}
