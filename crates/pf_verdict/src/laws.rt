ghost use Rattle.pf_verdict.specs.Grow.{GreatestCostIsTold};
ghost use Rattle.pf_verdict.specs.Room.{RoomMissesNone};
ghost use Rattle.pf_verdict.specs.Strain.{FirstTightestIsTold};

/// The slot that is told as the tightest is the first of those with the least free units; there is none where no slot was
/// stepped.
pub fn the_first_tightest_is_told()
    ensures { FirstTightestIsTold }
{}

/// The cost that is told of a task is the greatest with which the load stays within room and cap in each slot of its stay.
pub fn the_greatest_cost_is_told()
    ensures { GreatestCostIsTold }
{}

/// A desk whose settings are enough misses no window, nor does a run of any scenario that further commands lead to, where these
/// bring no limit that leaves too few processors in use.
pub fn room_misses_none()
    ensures { RoomMissesNone }
{}
