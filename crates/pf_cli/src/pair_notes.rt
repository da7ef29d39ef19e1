//! The notes of two scripts that are compared.
ghost use Rattle.std.specs.Prelude.{◌≡◌, ◌++◌, [], if◌then◌else◌, IfOk, OnOk};
ghost use Rattle.pf_cli.specs.Compared.{JoinsNotes, are_as_large, size_text, sized_text, sizes_line};

use pf_desk::snapshot::Snapshot;
use pf_text::file_name::push_file;
use pf_text::numbers::push_number;
use pf_vocabulary::fault::fault::Fault;
use std::alloc::{AllocError, Global};

/// The notes of both: what tells of their sizes, then those of the first, and those of the second.
///
/// # Errors
///
/// `NoMemory` where memory is refused, and the fault for which those of a script could not be had.
pub(crate) fn join_notes(
    sizes: Vec<u8>,
    first: Result<Vec<u8>, Fault>,
    second: Result<Vec<u8>, Fault>,
) -> Result<Vec<u8>, Fault>
    ensures { JoinsNotes result sizes.items first second }
{
    let mut text = sizes;
    let first = first?;
    let second = second?;
    text.extend_from_slice(&first)?;
    text.extend_from_slice(&second)?;
    Ok(text)
}

/// How many slots two scripts stepped, and how many processors they have, where these are not the same; else nothing. Each is told
/// by the name of its file.
///
/// # Errors
///
/// Where memory is refused.
pub(crate) fn sizes_note(
    alloc: Global,
    first: &[u8],
    second: &[u8],
    before: &Snapshot,
    after: &Snapshot,
) -> Result<Vec<u8>, AllocError>
    ensures { IfOk result (λ text. text.items ≡ (if are_as_large before.now after.now then [] else sizes_line first.now second.now before.now after.now)) }
{
    let mut text = Vec::new(alloc);
    if !are_as_large(before, after) {
        push_sizes(&mut text, first, second, before, after)?;
    }
    Ok(text)
}

/// Whether two scripts stepped as many slots, on as many processors.
fn are_as_large(before: &Snapshot, after: &Snapshot) -> bool
    ensures { result ≡ are_as_large before.now after.now }
{
    before.now() == after.now() && processors_of(before) == processors_of(after)
}

/// Appends the sizes of two scripts, and what of them is compared.
#[tactic(auto, unfolding(crate::specs::Compared::sizes_line))]
fn push_sizes(
    text: &mut Vec<u8>,
    first: &[u8],
    second: &[u8],
    before: &Snapshot,
    after: &Snapshot,
) -> Result<(), AllocError>
    ensures { OnOk result (text.new.items ≡ text.old.items ++ sizes_line first.now second.now before.now after.now) }
{
    let slots = before.now().min(after.now());
    let processors = processors_of(before).min(processors_of(after));
    push_sized(text, first, before)?;
    push_sized(text, second, after)?;
    text.extend_from_slice(b"compared: ")?;
    push_size(text, slots, processors)?;
    text.extend_from_slice(b"\n")
}

/// Appends the size of the script of this file.
#[tactic(auto, unfolding(crate::specs::Compared::sized_text))]
fn push_sized(text: &mut Vec<u8>, file: &[u8], seen: &Snapshot) -> Result<(), AllocError>
    ensures { OnOk result (text.new.items ≡ text.old.items ++ sized_text file.now seen.now) }
{
    push_file(text, file)?;
    text.extend_from_slice(b": ")?;
    push_size(text, seen.now(), processors_of(seen))?;
    text.extend_from_slice(b"; ")
}

/// Appends so many slots and processors.
fn push_size(text: &mut Vec<u8>, slots: u64, processors: u64) -> Result<(), AllocError>
    ensures { OnOk result (text.new.items ≡ text.old.items ++ size_text slots processors) }
{
    push_number(text, slots)?;
    text.extend_from_slice(b" slots, ")?;
    push_number(text, processors)?;
    text.extend_from_slice(b" processors")?;
    Ok(())
}

/// How many processors it has.
fn processors_of(seen: &Snapshot) -> u64
    ensures { result ≡ seen.now.state.plan.settings.processors }
{
    u64::from(seen.settings().processors())
}
