ghost use Rattle.std.specs.Prelude.{◌≡◌, ◌≤◌, [], IfOk, vec_capacity};

use pf_order::pick::Pick;
use pf_run::denied::Denied;
use std::alloc::{AllocError, Global};

/// The memory of a slot, which is taken before anything changes.
#[derive(Drop)]
pub(crate) struct Room {
    /// For the slot's denials.
    pub(crate) denials: Vec<Denied>,
    /// For the subtasks that run.
    pub(crate) picks: Vec<Pick>,
}

impl Room {
    ghost use Rattle.pf_engine.specs.Rooms.{HasSlotRoom};

    /// Room for this many denials and picks.
    ///
    /// # Errors
    ///
    /// Where memory is refused.
    pub(crate) fn new(alloc: Global, denials: usize, picks: usize) -> Result<Self, AllocError>
        ensures { IfOk result (HasSlotRoom denials picks) }
    {
        Ok(Room {
            denials: Vec::with_capacity(alloc, denials)?,
            picks: Vec::with_capacity(alloc, picks)?,
        })
    }
}
