ghost use Rattle.std.specs.Prelude.{◌≡◌, IfOk};
ghost use Rattle.std.specs.String.{string_bytes};
ghost use Rattle.pf_vocabulary.specs.Names.Titled.{label_of, number_label, untitled};

use crate::names::names::Names;
use crate::names::slot_length::SlotLength;
use std::alloc::{AllocError, Global};

/// What a script tells of a desk that the desk itself does not hold: what its tasks are called, and how long a slot is.
#[derive(Drop)]
pub struct Titles {
    /// Whether the script is a plan, and reports tell of names, whether or not it gives one.
    pub is_plan: bool,
    /// The names of its tasks.
    pub names: Names,
    /// How long a slot is, where that is told.
    pub slot: Option<SlotLength>,
}

impl Titles {
    /// Those of a script of version 1 or 2, which can tell none.
    pub fn none(alloc: Global) -> Self
        ensures { result ≡ untitled }
    {
        Titles {
            is_plan: false,
            names: Names::new(alloc),
            slot: None,
        }
    }
}

/// What a task without a name is called.
#[tactic(auto, unfolding(crate::specs::Names::Titled::number_label))]
fn number_label(alloc: Global, task: u64) -> Result<String, AllocError>
    ensures { IfOk result (λ label. string_bytes label ≡ number_label task) }
{
    format!(in alloc; "task {task}")
}

/// What a task is called: its name, or `task` and its number.
///
/// # Errors
///
/// Where memory is refused.
pub fn label_of(alloc: Global, names: &Names, task: u64) -> Result<String, AllocError>
    ensures { IfOk result (λ label. string_bytes label ≡ label_of names.now task) }
{
    match names.of_task(task) {
        Some(name) => String::from_str(alloc, name.as_str()),
        None => number_label(alloc, task),
    }
}
