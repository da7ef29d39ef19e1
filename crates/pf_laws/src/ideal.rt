//! Why PD2 misses no window: schedules by the earlier deadline, and of one deadline by the longer reach, leave no subtask
//! overdue where no slot is asked for more than it has. Its laws are of any such schedule, whatever its tasks are.

ghost use Rattle.pf_laws.specs.Ideal.Laws.{NoneIsOverdue, OverdueCostsQuanta};

/// Each overdue subtask costs a whole quantum: a schedule that at some slot has subtasks overdue, of whatever tasks and
/// deadlines, was asked for at least as many quanta more than its slots before have.
pub fn overdue_costs_quanta()
    ensures { OverdueCostsQuanta }
{}

/// A schedule that is asked in no slot for more than it has leaves no subtask overdue: each runs before its deadline.
pub fn none_is_overdue()
    ensures { NoneIsOverdue }
{}
