//! What is promised of the runs of scenarios in which tasks only join: which of them are let in, and what they ask of each slot.

ghost use Rattle.pf_laws.specs.Joins.Joins.{JoinsAreLetIn, JoinsStayWithinRoom};

/// Where tasks only join, below a slot, no join of the run up to that slot is denied just where they ask together for no more
/// than the cap.
pub fn joins_are_let_in()
    ensures { JoinsAreLetIn }
{}

/// Where they do so, and the processors carry the cap, no slot is asked for more than its processors in use.
pub fn joins_stay_within_room()
    ensures { JoinsStayWithinRoom }
{}
