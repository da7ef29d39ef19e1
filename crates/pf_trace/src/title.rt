ghost use Rattle.std.specs.Prelude.{◌≡◌, IfOk};
ghost use Rattle.std.specs.String.{string_bytes};
ghost use Rattle.pf_vocabulary.specs.Names.Titled.{label_of};
ghost use Rattle.pf_trace.specs.Titles.{step_of, tag_of, title_of, unit_length};

use pf_text::numbers::push_number;
use pf_vocabulary::names::names::Names;
use pf_vocabulary::names::slot_length::SlotLength;
use pf_vocabulary::names::titles::{Titles, label_of};
use pf_vocabulary::names::unit::Unit;
use std::alloc::{AllocError, Global};
use std::marker::Model;

/// What a task is called in the events, and how long a slot is.
#[derive(Drop)]
pub struct Title {
    /// Its name, or `task` and its number.
    label: String,
    /// Its name, or its number.
    tag: Vec<u8>,
    /// The nanoseconds of a slot.
    step: u64,
}

impl Model for Title {
    ghost use Rattle.std.specs.String.{string_bytes};
    ghost use Rattle.pf_trace.specs.Titles.{Called};

    ghost Value = { Called };

    ghost view = { λ t. record { label = string_bytes t.label; tag = t.tag.items; step = t.step } };
}

/// The nanoseconds of a unit.
fn unit_length(unit: Unit) -> u64
    ensures { result ≡ unit_length unit }
{
    match unit {
        Unit::Nanosecond => 1,
        Unit::Microsecond => 1_000,
        Unit::Millisecond => 1_000_000,
        Unit::Second => 1_000_000_000,
    }
}

/// The nanoseconds of a slot: those of a millisecond where its length is not told.
///
/// # Errors
///
/// Where they are more than 64 bits have, which no script can tell.
pub(crate) fn step_of(slot: Option<SlotLength>) -> Result<u64, AllocError>
    ensures { IfOk result (λ step. step ≡ step_of slot) }
{
    match slot {
        None => Ok(1_000_000),
        Some(slot) => match slot.length.checked_mul(unit_length(slot.unit)) {
            Some(step) => Ok(step),
            None => Err(AllocError),
        },
    }
}

/// The name of a task, or its number.
fn tag_of(alloc: Global, names: &Names, task: u64) -> Result<Vec<u8>, AllocError>
    ensures { IfOk result (λ tag. tag.items ≡ tag_of names.now task) }
{
    match names.of_task(task) {
        Some(name) => Vec::from_slice(alloc, name.as_bytes()),
        None => {
            let mut tag = Vec::new(alloc);
            push_number(&mut tag, task)?;
            Ok(tag)
        }
    }
}

impl Title {
    ghost use Rattle.std.specs.Prelude.{◌≡◌, IfOk};
    ghost use Rattle.pf_trace.specs.Titles.{title_of};

    /// What these titles call a task.
    ///
    /// # Errors
    ///
    /// Where memory is refused.
    #[tactic(auto, unfolding(crate::specs::Titles::title_of))]
    pub(crate) fn of(alloc: Global, titles: &Titles, task: u64) -> Result<Self, AllocError>
        ensures { IfOk result (λ t. t ≡ title_of titles.now task) }
    {
        Ok(Title {
            label: label_of(alloc, &titles.names, task)?,
            tag: tag_of(alloc, &titles.names, task)?,
            step: step_of(titles.slot)?,
        })
    }

    /// Its name, or `task` and its number.
    pub(crate) fn label(&self) -> &[u8]
        ensures { result.now ≡ self.now.label }
    {
        self.label.as_str().as_bytes()
    }

    /// Its name, or its number.
    pub(crate) fn tag(&self) -> &[u8]
        ensures { result.now ≡ self.now.tag }
    {
        &self.tag
    }

    /// The nanoseconds of a slot.
    pub(crate) fn step(&self) -> u64
        ensures { result ≡ self.now.step }
    {
        self.step
    }
}
