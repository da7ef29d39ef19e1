ghost use Rattle.pf_notes.specs.Laws.{NextLeaveIsFirst};

/// The slot that is told of a leave which was too early is the first after it in which the rule of leaves lets the task go, as the
/// run is; where none is told, there is none among those looked at.
pub fn next_leave_is_first()
    ensures { NextLeaveIsFirst }
{}
