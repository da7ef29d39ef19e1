//! Laws of what notes tell of denied events, which no program calls. The one contract of this crate: a denied event has no effect,
//! and a leave that was too early is let go in the slot that is told of it, and in none before.

ghost use Rattle.pf_script_laws.specs.Repairs.Repairs.{DeniedEventsHaveNoEffect, EarlyLeavesMayBeAltered};

use pf_notes::laws::next_leave_is_first;

/// A denied event has no effect: where it is struck out, the run is the same but for its denial.
pub fn a_denied_event_has_no_effect()
    ensures { DeniedEventsHaveNoEffect }
{}

/// The slot that is told of a leave that was too early is the next one in which it may leave: with the leave altered to that slot
/// it is not denied in the run up to it, and in each slot between it would be too early.
pub fn an_early_leave_may_be_altered()
    ensures { EarlyLeavesMayBeAltered }
{
    next_leave_is_first();
}
