use pf_desk::reply::Fault;
use pf_run_notes::place::Place;

/// A record with a refused command.
#[derive(Clone, Copy)]
pub struct RefusedRecord {
    /// Where it stands.
    pub place: Place,
    /// Why it was refused.
    pub fault: Fault,
    /// The number of the event that the refusal names: another join or leave of the task, or the event that a strict change would
    /// leave denied.
    pub event: Option<u64>,
    /// How many steps were refused, of a record of steps.
    pub steps: Option<u64>,
}
