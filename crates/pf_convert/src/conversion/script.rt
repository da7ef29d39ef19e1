ghost use Rattle.std.specs.Prelude.{◌≡◌, ◌≤◌, ◌<◌, ◌++◌, ◌^◌, All, OnOk, length};
ghost use Rattle.std.specs.List.{flat_map};
ghost use Rattle.pf_convert.specs.declared.quantum.TheConstants.{LONGEST_QUANTUM};
ghost use Rattle.pf_convert.specs.declared.plan.Plan.{Plan};
ghost use Rattle.pf_weight.specs.declared.base.TheConstants.{LARGEST_BASE};
ghost use Rattle.pf_convert.specs.Conversion.Script.{head_lines, join_line, last_join, name_line, numbered, script_text, slot_of, step_line, steps_of};

use crate::list::listed::Listed;
use crate::list::parts::{Part, push_parts};
use crate::plan::Plan;
use crate::slotted::Slotted;
use pf_scenario::settings::WIDE_HORIZON;
use pf_vocabulary::names::unit::Unit;
use std::alloc::AllocError;

/// The length of a quantum in the greatest unit in which it is whole.
fn slot_of(quantum: u64) -> (u64, Unit)
    ensures { result ≡ slot_of quantum }
{
    if quantum % 1_000_000_000 == 0 {
        (quantum / 1_000_000_000, Unit::Second)
    } else if quantum % 1_000_000 == 0 {
        (quantum / 1_000_000, Unit::Millisecond)
    } else if quantum % 1_000 == 0 {
        (quantum / 1_000, Unit::Microsecond)
    } else {
        (quantum, Unit::Nanosecond)
    }
}

/// The greatest slot of a join.
fn last_join(tasks: &[Slotted]) -> u64
    ensures { result ≡ last_join tasks.now }
{
    let mut last = 0;
    for task in tasks {
        last = last.max(task.join);
    }
    last
}

/// How many slots are stepped: one base after the last join, where so many can be.
fn steps_of(base: u64, tasks: &[Slotted]) -> u64
    requires { base ≤ LARGEST_BASE }
    ensures { result ≡ steps_of base tasks.now }
{
    last_join(tasks).saturating_add(base).min(WIDE_HORIZON)
}

/// Adds the script of a plan on so many processors.
///
/// # Errors
///
/// Where memory is refused: a front of it was added.
#[tactic(auto, unfolding(crate::specs::Conversion::Script::script_text))]
pub fn push_script(
    text: &mut Vec<u8>,
    processors: u64,
    quantum: u64,
    tasks: &[Listed],
    plan: &Plan,
) -> Result<(), AllocError>
    requires processors { processors ≤ 64 }
    requires base { plan.now.base ≤ LARGEST_BASE }
    ensures { OnOk result (text.new.items ≡ text.old.items ++ script_text processors quantum tasks.now plan.now) }
{
    push_head(text, processors, plan.base, quantum)?;
    push_names(text, tasks)?;
    push_joins(text, &plan.tasks)?;
    push_step(text, steps_of(plan.base, &plan.tasks))
}

/// Adds the lines before the names.
fn push_head(text: &mut Vec<u8>, processors: u64, base: u64, quantum: u64) -> Result<(), AllocError>
    requires processors { processors ≤ 64 }
    requires base { base ≤ LARGEST_BASE }
    ensures { OnOk result (text.new.items ≡ text.old.items ++ head_lines processors base (slot_of quantum)) }
{
    let (length, unit) = slot_of(quantum);
    push_parts(
        text,
        &[
            Part::Words("plan,1\nsettings,"),
            Part::Number(processors),
            Part::Words(","),
            Part::Number(base),
            Part::Words(","),
            Part::Number(processors * base),
            Part::Words(",64\nslot,"),
            Part::Number(length),
            Part::Words(","),
            Part::Words(unit.word()),
            Part::Words("\n"),
        ],
    )
}

/// Adds the line of the steps.
fn push_step(text: &mut Vec<u8>, steps: u64) -> Result<(), AllocError>
    ensures { OnOk result (text.new.items ≡ text.old.items ++ step_line steps) }
{
    push_parts(
        text,
        &[Part::Words("step,"), Part::Number(steps), Part::Words("\n")],
    )
}

/// Adds a line for the name of each task, which are numbered from 1.
fn push_names(text: &mut Vec<u8>, tasks: &[Listed]) -> Result<(), AllocError>
    ensures { OnOk result (text.new.items ≡ text.old.items ++ numbered name_line 1 tasks.now) }
{
    for (place, task) in tasks.iter().enumerate() {
        push_name(text, place as u64 + 1, task)?;
    }
    Ok(())
}

/// Adds the line of a name.
fn push_name(text: &mut Vec<u8>, number: u64, task: &Listed) -> Result<(), AllocError>
    ensures { OnOk result (text.new.items ≡ text.old.items ++ name_line number task.now) }
{
    push_parts(
        text,
        &[
            Part::Words("name,"),
            Part::Number(number),
            Part::Words(","),
            Part::Bytes(task.name.as_bytes()),
            Part::Words("\n"),
        ],
    )
}

/// Adds a line for the join of each task, which are numbered from 1.
fn push_joins(text: &mut Vec<u8>, tasks: &[Slotted]) -> Result<(), AllocError>
    ensures { OnOk result (text.new.items ≡ text.old.items ++ numbered join_line 1 tasks.now) }
{
    for (place, task) in tasks.iter().enumerate() {
        push_join(text, place as u64 + 1, *task)?;
    }
    Ok(())
}

/// Adds the line of a join.
fn push_join(text: &mut Vec<u8>, number: u64, task: Slotted) -> Result<(), AllocError>
    ensures { OnOk result (text.new.items ≡ text.old.items ++ join_line number task) }
{
    push_parts(
        text,
        &[
            Part::Words("join,"),
            Part::Number(task.join),
            Part::Words(","),
            Part::Number(number),
            Part::Words(","),
            Part::Number(task.cost),
            Part::Words(","),
            Part::Number(task.period),
            Part::Words(","),
            Part::Number(task.early),
            Part::Words("\n"),
        ],
    )
}
