//! PD2 misses no window of periodic tasks that all begin at slot 0, where their weights come to no more than the
//! processors; and where they come to more, no choice of quanta serves them. The laws are of every schedule that PD2's rule
//! allows, however remaining ties are broken.

ghost use Rattle.pf_laws.specs.StaticSets.Laws.{EachRunsInItsWindow};
ghost use Rattle.pf_laws.specs.StaticSets.Service.{EachServedFits, ServedByPD2};

/// Each subtask of each task runs in its window.
///
/// Source of the theorem: Anderson and Srinivasan, "Mixed Pfair/ERfair scheduling of asynchronous periodic tasks",
/// JCSS 68, 2004. The proof is another: it compares the schedule with an ideal run at constant rates, and ranks
/// subtasks by how far they reach past their deadlines.
pub fn each_subtask_runs_in_its_window()
    ensures { EachRunsInItsWindow }
{}

/// Tasks that any choice of quanta serves, with at most as many in a slot as there are processors, have weights that come
/// to no more than the processors.
pub fn each_served_set_fits()
    ensures { EachServedFits }
{}

/// PD2 serves whatever can be served: where any choice of quanta serves the tasks as far as the base, every schedule of PD2
/// serves them for ever.
pub fn pd2_serves_what_can_be_served()
    ensures { ServedByPD2 }
{}
