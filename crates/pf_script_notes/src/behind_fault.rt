ghost use Rattle.std.specs.Prelude.{◌≡◌, List, ℕ, IfOk};
ghost use Rattle.pf_script_run.specs.Carried.{IsOf};
ghost use Rattle.pf_script.specs.Told.{told};
ghost use Rattle.pf_script_notes.specs.Behind.{IsSlots, IsSlotsOf};
ghost use Rattle.pf_script_notes.specs.Faults.{IsFaultNote, IsRangeNote, long_text, outside_text};

use pf_desk::desk::Desk;
use pf_plain_script::plain::plain_script;
use pf_script::check::script_faults::first_fault_text;
use pf_script::fault_notes::file_fault::{FileFault, file_fault_line};
use pf_script::fault_notes::range::{long_note, outside_note, page_note};
use pf_script_run::carry::carry;
use pf_vocabulary::fault::fault::Fault;
use pf_vocabulary::fault::range_fault::RangeFault;
use pf_vocabulary::options::slot_range::SlotRange;
use std::alloc::{AllocError, Global};

/// What is told of a fault of the script of this file: of a bad record, what a check tells of it, with its hint, where hints are asked
/// for; of a script that is too long, that it is; of a range, which end is beyond, or how many slots it has, for which the script is carried out, and of a
/// page, which has no range, how many were stepped; of any other nothing.
///
/// # Errors
///
/// `NoMemory` where memory is refused, and `BadRecord` at a record that is none of the script's, where it is carried out.
pub fn fault_note(
    alloc: Global,
    file: &[u8],
    script: &[u8],
    hints: bool,
    range: Option<SlotRange>,
    fault: Fault,
) -> Result<Vec<u8>, Fault>
    ensures { IfOk result (λ text. IsFaultNote file.now script.now hints range fault text.items) }
{
    match fault {
        Fault::BadRecord(_) => Ok(first_fault_text(alloc, file, script, hints)?),
        Fault::TooLong => Ok(file_fault_line(alloc, file, FileFault::TooLong)?),
        Fault::BadRange(why) => range_note(alloc, script, range, why),
        _ => Ok(Vec::new(alloc)),
    }
}

/// Why a range of the slots stepped by a script can't be shown.
fn range_note(
    alloc: Global,
    script: &[u8],
    range: Option<SlotRange>,
    why: RangeFault,
) -> Result<Vec<u8>, Fault>
    ensures { IfOk result (λ text. IsRangeNote script.now range why text.items) }
{
    match why {
        RangeFault::NotWithin(now) => outside(alloc, range, now),
        RangeFault::TooLong => {
            let now = slots_stepped(alloc, script)?;
            too_long(alloc, range, now)
        }
    }
}

/// Which end of a range is not within the slots stepped.
fn outside(alloc: Global, range: Option<SlotRange>, now: u64) -> Result<Vec<u8>, Fault>
    ensures { IfOk result (λ text. text.items ≡ outside_text range now) }
{
    match range {
        Some(range) => Ok(outside_note(alloc, range, now)?),
        None => Ok(Vec::new(alloc)),
    }
}

/// How many slots a picture was asked for, or a page, that may not show so many.
fn too_long(alloc: Global, range: Option<SlotRange>, now: u64) -> Result<Vec<u8>, Fault>
    ensures { IfOk result (λ text. text.items ≡ long_text range now) }
{
    match range {
        Some(range) => Ok(long_note(alloc, range.slots(now))?),
        None => Ok(page_note(alloc, now)?),
    }
}

/// How many slots a script of any version steps.
fn slots_stepped(alloc: Global, script: &[u8]) -> Result<u64, Fault>
    ensures { IfOk result (IsSlotsOf script.now) }
{
    match plain_script(alloc, script) {
        Ok(Some(plain)) => slots_behind(alloc, &plain.text),
        Ok(None) => slots_behind(alloc, script),
        Err(AllocError) => Err(Fault::NoMemory),
    }
}

/// How many one of version 1 or 2 steps.
fn slots_behind(alloc: Global, script: &[u8]) -> Result<u64, Fault>
    ensures { IfOk result (IsSlots script.now) }
{
    match carry(alloc, script) {
        Ok(desk) => match slots_shown(&desk) {
            Ok(now) => Ok(now),
            Err(AllocError) => Err(Fault::NoMemory),
        },
        Err(fault) => Err(fault),
    }
}

/// How many the desk shows that carried a script out.
fn slots_shown(desk: &Desk) -> Result<u64, AllocError>
    ensures { (script : List ℕ) → IsOf (told script) desk.now → IfOk result (IsSlots script) }
{
    let snapshot = desk.snapshot()?;
    Ok(snapshot.now())
}
