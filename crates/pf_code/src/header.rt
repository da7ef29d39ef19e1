ghost use Rattle.std.specs.Prelude.{◌≡◌, ◌++◌, OnOk};
ghost use Rattle.pf_code.specs.Header.{comments_text, constants_line, constants_text, guard_lines, jobs_line, repetition_line, slot_line, title_line};

use crate::outline::{Outline, nanoseconds_of};
use crate::parts::{Part, push_parts};
use crate::repetition::Repetition;
use pf_vocabulary::names::slot_length::SlotLength;
use std::alloc::AllocError;

/// Adds the line that tells what the table is.
fn push_title(text: &mut Vec<u8>, outline: Outline) -> Result<(), AllocError>
    ensures { OnOk result (text.new.items ≡ text.old.items ++ title_line outline) }
{
    push_parts(
        text,
        &[
            Part::Words("/* PD2 schedule, slots "),
            Part::Number(outline.from),
            Part::Words(" to "),
            Part::Number(outline.to),
            Part::Words(" of "),
            Part::Number(outline.now),
            Part::Words(", "),
            Part::Number(u64::from(outline.processors)),
            Part::Words(" processors, base "),
            Part::Number(outline.base),
            Part::Words(". A row is a slot, a column a processor; 0 is nobody. */\n"),
        ],
    )
}

/// Adds the line that tells whether it repeats, or why that is not known.
fn push_repetition(text: &mut Vec<u8>, repetition: Repetition) -> Result<(), AllocError>
    ensures { OnOk result (text.new.items ≡ text.old.items ++ repetition_line repetition) }
{
    match repetition {
        Repetition::Every(span) => push_parts(
            text,
            &[
                Part::Words("/* It repeats: the tasks of slot t are those of row t mod "),
                Part::Number(span),
                Part::Words(", for ever. */\n"),
            ],
        ),
        Repetition::OtherEvents => text.extend_from_slice(
            b"/* It is not known to repeat: more happens than joins in slot 0 without EARLY. */\n",
        ),
        Repetition::NoSlot => {
            text.extend_from_slice(b"/* It is not known to repeat: no slot was stepped. */\n")
        }
        Repetition::Overload => text.extend_from_slice(
            b"/* It is not known to repeat: the load is above the processors. */\n",
        ),
        Repetition::OutOfRange(span) => push_parts(
            text,
            &[
                Part::Words("/* It is not known to repeat: that takes the slots 0 to "),
                Part::Number(span),
                Part::Words(". */\n"),
            ],
        ),
    }
}

/// Adds the line that tells how often jobs may come, where the slot's length is told.
fn push_jobs(text: &mut Vec<u8>, outline: Outline) -> Result<(), AllocError>
    ensures { OnOk result (text.new.items ≡ text.old.items ++ jobs_line outline.slot outline.repetition) }
{
    if outline.slot.is_none() {
        return Ok(());
    }
    match outline.repetition.known_span() {
        Some(_) => text.extend_from_slice(
            b"/* Jobs come a period apart or more; those that come less often drift through the rows. Each is done within the time told, from its arrival on. */\n",
        ),
        None => text.extend_from_slice(
            b"/* Jobs are planned at each period. Where convert rounded a period down, jobs come later than planned, and may end late. */\n",
        ),
    }
}

/// Adds the comments.
pub(crate) fn push_comments(text: &mut Vec<u8>, outline: Outline) -> Result<(), AllocError>
    ensures { OnOk result (text.new.items ≡ text.old.items ++ comments_text outline) }
{
    push_title(text, outline)?;
    push_repetition(text, outline.repetition)?;
    push_jobs(text, outline)
}

/// Adds the guard.
fn push_guard(text: &mut Vec<u8>, capitals: &[u8]) -> Result<(), AllocError>
    ensures { OnOk result (text.new.items ≡ text.old.items ++ guard_lines capitals.now) }
{
    push_parts(
        text,
        &[
            Part::Words("#ifndef "),
            Part::Bytes(capitals),
            Part::Words("_SCHEDULE_H\n#define "),
            Part::Bytes(capitals),
            Part::Words("_SCHEDULE_H\n#include <stdint.h>\n"),
        ],
    )
}

/// Adds the slot's length, where it is told.
fn push_slot(
    text: &mut Vec<u8>,
    capitals: &[u8],
    slot: Option<SlotLength>,
) -> Result<(), AllocError>
    ensures { OnOk result (text.new.items ≡ text.old.items ++ slot_line capitals.now slot) }
{
    match slot {
        Some(slot) => push_parts(
            text,
            &[
                Part::Words("#define "),
                Part::Bytes(capitals),
                Part::Words("_SLOT_NS UINT64_C("),
                Part::Wide(nanoseconds_of(slot)),
                Part::Words(")\n"),
            ],
        ),
        None => Ok(()),
    }
}

/// Adds the line of the four constants.
fn push_constants_line(
    text: &mut Vec<u8>,
    capitals: &[u8],
    outline: Outline,
) -> Result<(), AllocError>
    ensures { OnOk result (text.new.items ≡ text.old.items ++ constants_line capitals.now outline) }
{
    let span = outline.repetition.known_span().unwrap_or(0);
    let slots = outline.slots();
    push_parts(
        text,
        &[
            Part::Words("enum { "),
            Part::Bytes(capitals),
            Part::Words("_PROCESSORS = "),
            Part::Number(u64::from(outline.processors)),
            Part::Words(", "),
            Part::Bytes(capitals),
            Part::Words("_FROM = "),
            Part::Number(outline.from),
            Part::Words(", "),
            Part::Bytes(capitals),
            Part::Words("_SLOTS = "),
            Part::Number(slots),
            Part::Words(", "),
            Part::Bytes(capitals),
            Part::Words("_REPEATS = "),
            Part::Number(span),
            Part::Words(" };\n"),
        ],
    )
}

/// Adds the guard and the constants.
pub(crate) fn push_constants(
    text: &mut Vec<u8>,
    capitals: &[u8],
    outline: Outline,
) -> Result<(), AllocError>
    ensures { OnOk result (text.new.items ≡ text.old.items ++ constants_text capitals.now outline) }
{
    push_guard(text, capitals)?;
    push_slot(text, capitals, outline.slot)?;
    push_constants_line(text, capitals, outline)
}
