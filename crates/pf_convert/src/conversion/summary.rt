ghost use Rattle.std.specs.Prelude.{◌≡◌, ◌≤◌, ◌*◌, ◌++◌, OnOk};
ghost use Rattle.pf_convert.specs.declared.plan.Plan.{Plan};
ghost use Rattle.pf_weight.specs.declared.base.TheConstants.{LARGEST_BASE};
ghost use Rattle.pf_convert.specs.Conversion.Planned.{HoldsTasks};
ghost use Rattle.pf_convert.specs.Conversion.Summary.{base_line, load_line, room_text, summary_text};

use crate::conversion::report::PLACES;
use crate::list::parts::{Part, push_parts};
use crate::plan::Plan;
use crate::work::BILLION;
use pf_text::columns::decimals::{push_cut, push_up};
use std::alloc::AllocError;

/// Adds the two lines below the table: the base, and the load beside the room of so many processors. The work is told in
/// billionths of a processor.
///
/// # Errors
///
/// Where memory is refused: a front of it was added.
#[tactic(auto, unfolding(crate::specs::Conversion::Summary::summary_text))]
pub fn push_summary(
    text: &mut Vec<u8>,
    processors: u64,
    plan: &Plan,
    work: u128,
) -> Result<(), AllocError>
    requires plan { HoldsTasks plan.now }
    requires processors { processors ≤ 64 }
    ensures { OnOk result (text.new.items ≡ text.old.items ++ summary_text processors plan.now work) }
{
    push_base(text, plan.base, plan.exact)?;
    push_load(text, processors, plan.base, plan.load, work)?;
    push_room(text, plan.base, plan.load, processors * plan.base)
}

/// Adds the line of the base.
fn push_base(text: &mut Vec<u8>, base: u64, exact: bool) -> Result<(), AllocError>
    ensures { OnOk result (text.new.items ≡ text.old.items ++ base_line base exact) }
{
    if exact {
        push_parts(
            text,
            &[
                Part::Words("base "),
                Part::Number(base),
                Part::Words(": the least common multiple of the periods\n"),
            ],
        )
    } else {
        push_parts(
            text,
            &[
                Part::Words("base "),
                Part::Number(base),
                Part::Words(": each period is rounded down to a divisor of it\n"),
            ],
        )
    }
}

/// Adds what is asked for, and of how much.
fn push_load(
    text: &mut Vec<u8>,
    processors: u64,
    base: u64,
    load: u64,
    work: u128,
) -> Result<(), AllocError>
    requires some { 1 ≤ base }
    requires within { base ≤ LARGEST_BASE }
    ensures { OnOk result (text.new.items ≡ text.old.items ++ load_line processors base load work) }
{
    push_parts(text, &[Part::Words("work ")])?;
    push_up(text, work, BILLION, PLACES)?;
    push_parts(text, &[Part::Words(", planned ")])?;
    push_up(text, u128::from(load), u128::from(base), PLACES)?;
    push_parts(
        text,
        &[
            Part::Words(" of "),
            Part::Number(processors),
            Part::Words(" processors, "),
        ],
    )
}

/// Adds which part of a processor is free, or by how much it is too much.
fn push_room(text: &mut Vec<u8>, base: u64, load: u64, room: u64) -> Result<(), AllocError>
    requires some { 1 ≤ base }
    requires within { base ≤ LARGEST_BASE }
    requires room { room ≤ 64 * LARGEST_BASE }
    ensures { OnOk result (text.new.items ≡ text.old.items ++ room_text base load room) }
{
    if load <= room {
        push_cut(text, (room - load) as i64, base, PLACES)?;
        text.extend_from_slice(b" free: fits\n")
    } else {
        push_up(text, u128::from(load - room), u128::from(base), PLACES)?;
        text.extend_from_slice(b" too much: does not fit\n")
    }
}
