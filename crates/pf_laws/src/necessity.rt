//! What no run can serve: subtasks that have to run in some slots, more of them than these slots have quanta.

ghost use Rattle.pf_laws.specs.Necessity.Bound.{MoreThanFitIsMissed};

/// Of different subtasks that may run in some slots alone, and are due by their end, a run misses all but as many as these
/// slots have quanta, at the least.
pub fn more_than_fit_is_missed()
    ensures { MoreThanFitIsMissed }
{}
