//! What bits and group deadlines are for: a subtask that runs in the last slot of its window presses the next ones of
//! its task into the last slots of theirs, and the order of PD2 ranks subtasks of one deadline by how far. So PD2 is by
//! the earlier deadline and then by the longer reach.

ghost use Rattle.pf_laws.specs.Reach.Laws.{GroupDeadlinesEndReach, OrderRanksByReach, PD2IsByReach};

/// A subtask reaches past its deadline up to its group deadline: that of a light task not at all.
///
/// Source of the definition: Anderson and Srinivasan, "Mixed Pfair/ERfair scheduling of asynchronous periodic tasks",
/// JCSS 68, 2004.
pub fn group_deadlines_end_reach()
    ensures { GroupDeadlinesEndReach }
{}

/// Of two subtasks with one deadline, the one that the other doesn't precede reaches as far as the other.
pub fn the_order_ranks_by_reach()
    ensures { OrderRanksByReach }
{}

/// The windows of weights, shifted or not, and the order of PD2 keep the laws of schedules by deadline and reach.
pub fn pd2_is_by_reach()
    ensures { PD2IsByReach }
{}
