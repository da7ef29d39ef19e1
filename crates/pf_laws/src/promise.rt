//! What is promised of every run of a scenario: its load never passes the cap, and where the processors in use carry
//! the load, no window is missed, whatever joins, leaves and is delayed. And what follows for lags and jobs: how far a task may be
//! ahead of its fair share and behind it, that a missed window shows in its lags, and how soon and how late a job is done. And what
//! the fit that `fits` of pf_tally tells says of all that.
//!
//! A scaled lag is `cost * clock - period * received`: one quantum is `period`. A job is `cost` subtasks, the first 1 to `cost`.

ghost use Rattle.pf_laws.specs.Promise.FitLaws.{FitsKeepLags, FitsMissNone, OverloadBoundsLateness, OverloadBoundsTardiness};
ghost use Rattle.pf_laws.specs.Promise.JobLaws.{DueJobsAreDone, JobsAreInTime, JobsAreNotSooner};
ghost use Rattle.pf_laws.specs.Promise.LagLaws.{LagsAreAbove, LagsAreBelow, LagsAreWithin, LagsCostQuanta, MissesShowInLags};
ghost use Rattle.pf_laws.specs.Promise.Laws.{LatenessCostsQuanta, LoadIsWithinCap, MissCostsQuantum, MissesCostQuanta, NoWindowIsMissed, OverdueCostsQuanta, SettingsSuffice, TardinessCostsQuanta, TardinessIsBounded};

/// The load never passes the cap, at every point of every run.
pub fn the_load_never_passes_the_cap()
    ensures { LoadIsWithinCap }
{}

/// A run misses no window unless its overload, slot by slot and all slots together, comes to a whole quantum.
pub fn a_miss_costs_a_quantum()
    ensures { MissCostsQuantum }
{}

/// As many windows as a run misses with one deadline, so many whole quanta of overload lie in the slots below that
/// deadline, at the least.
pub fn misses_cost_quanta()
    ensures { MissesCostQuanta }
{}

/// As many windows as are overdue at a slot, so many whole quanta of overload lie in the slots below it, at the least: of
/// every slot and every run, however many windows of a task are overdue, and whatever was missed before.
pub fn overdue_costs_quanta()
    ensures { OverdueCostsQuanta }
{}

/// A window that is overdue at a slot, and so comes late by so and so many slots, cost as many quanta of overload before
/// its deadline. What is asked for after the deadline makes nothing later.
pub fn lateness_costs_quanta()
    ensures { LatenessCostsQuanta }
{}

/// A missed window whose subtask ran some slots late cost as many quanta of overload before its deadline.
pub fn tardiness_costs_quanta()
    ensures { TardinessCostsQuanta }
{}

/// No task of a run is tardy by more slots than the run's overload has quanta.
pub fn tardiness_is_bounded()
    ensures { TardinessIsBounded }
{}

/// A run whose load is within the processors in use, in each slot, misses no window.
///
/// Source of the theorem, for tasks that join and leave at will and are delayed: Srinivasan and Anderson, "Optimal
/// rate-based scheduling on multiprocessors", STOC 2002, and "Fair scheduling of dynamic task systems on
/// multiprocessors", WPDRTS 2003. The proof is another: see the folder ideal.
pub fn no_window_is_missed()
    ensures { NoWindowIsMissed }
{}

/// Where the processors carry the cap, and each limit leaves enough of them in use, no run misses a window.
pub fn the_settings_are_enough()
    ensures { SettingsSuffice }
{}

/// In every run, at each point of a task's stay, its scaled lag is above `-(period + cost * early)`: it is ahead by less
/// than a quantum and what its clock gains in `early` slots.
pub fn lags_are_above()
    ensures { LagsAreAbove }
{}

/// As long as a task missed no window, its scaled lag is below its period: it is behind by less than a quantum, whatever it
/// misses later.
pub fn lags_are_below()
    ensures { LagsAreBelow }
{}

/// In every run, whatever was missed, a task is behind its fair share by less than a quantum and what the overload of the
/// slots so far has: `base * lag < period * (base + overload)`.
pub fn lags_cost_quanta()
    ensures { LagsCostQuanta }
{}

/// A task's figures tell of no missed window exactly where their greatest lag is below its period.
pub fn misses_show_in_lags()
    ensures { MissesShowInLags }
{}

/// Where the load is within the processors in use, in each slot, a task with `early` 0 has a scaled lag between minus its
/// period and its period, at each point of its stay: this is what Pfair means.
///
/// Source of the bound: Baruah, Cohen, Plaxton and Varvel, "Proportionate progress: a notion of fairness in resource
/// allocation", Algorithmica 15, 1996; here it also holds through joins, leaves and delays.
pub fn lags_are_within()
    ensures { LagsAreWithin }
{}

/// A job whose last subtask ran and missed no window took no longer, from the shifted release of its first subtask to the
/// end of its last quantum, than the period and the slots of the delays that fell between these two subtasks.
pub fn jobs_are_in_time()
    ensures { JobsAreInTime }
{}

/// In every run a job took at least `period + 1` slots and the slots of the delays that fell between its first and its last
/// subtask, less `period / cost`, rounded up, and `early`.
pub fn jobs_are_not_sooner()
    ensures { JobsAreNotSooner }
{}

/// Where a task missed no window, each job whose last subtask is due by some point of its stay is done by then.
pub fn due_jobs_are_done()
    ensures { DueJobsAreDone }
{}

/// A run whose fit tells of no slot with a load above the processors in use missed no window.
pub fn fits_miss_none()
    ensures { FitsMissNone }
{}

/// In a run whose fit tells of no such slot the lag of a task that never runs early stays within a quantum, at each point of
/// its stay.
pub fn fits_keep_lags()
    ensures { FitsKeepLags }
{}

/// The greatest tardiness of each task of a run, times the base, is at most the overload that its fit tells.
pub fn overload_bounds_tardiness()
    ensures { OverloadBoundsTardiness }
{}

/// No window of a run comes later than by as many slots as the overload that its fit tells has quanta, whether it was served
/// at the end or not.
pub fn overload_bounds_lateness()
    ensures { OverloadBoundsLateness }
{}
