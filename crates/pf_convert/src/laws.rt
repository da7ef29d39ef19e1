ghost use Rattle.pf_convert.specs.Arrivals.{AlignedJobsAreDoneInTime, ArrivalsStayApart, ArrivalsWaitLessThanASlot, JobsAreDoneInTime, ReleasesStayApart};

/// Where each job is released at the begin of the first slot that begins no sooner than it arrives, jobs that arrive
/// `every` apart are released at least a period apart, rounded down as it is to whole slots.
pub fn arrivals_stay_apart()
    ensures { ArrivalsStayApart }
{}

/// A job that is released so, and is done by the begin of the slot a period later, is done within `(period + 1)` quanta of
/// its arrival.
pub fn arrivals_wait_less_than_a_slot()
    ensures { ArrivalsWaitLessThanASlot }
{}

/// Where each job is released so, the releases of a task are at least a period of its plan apart, whether its jobs arrive as
/// slots begin or at any time.
pub fn releases_stay_apart()
    ensures { ReleasesStayApart }
{}

/// A job that arrives as a slot begins, and is done within the period of its plan, is done when it is due.
pub fn aligned_jobs_are_done_in_time()
    ensures { AlignedJobsAreDoneInTime }
{}

/// A job that arrives at any time, and is done within the period of its plan from its release, is done before it is due.
pub fn jobs_are_done_in_time()
    ensures { JobsAreDoneInTime }
{}
