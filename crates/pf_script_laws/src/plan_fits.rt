//! Whether the script of a plan fits. What a conversion says of its plan is what `fit` says of a desk that answered the script's
//! commands.

ghost use Rattle.pf_script_laws.specs.PlanFits.Laws.{PlansAreTaken, PlansFitWhereTheyAreSaidTo, PlansMissNothing, UnservedPlansHaveNoSchedule};

/// A desk that is asked what a plan's script says refuses nothing.
pub fn plans_are_taken()
    ensures { PlansAreTaken }
{}

/// The verdict on a desk that was asked what a plan's script says is `fits` just where the load of the plan is within its
/// processors, as the conversion says.
pub fn plans_fit_where_they_are_said_to()
    ensures { PlansFitWhereTheyAreSaidTo }
{}

/// No window is ever missed of a desk that was asked what a plan's script says, over any number of slots: where its load is above
/// the processors, joins are denied.
pub fn plans_miss_nothing()
    ensures { PlansMissNothing }
{}

/// Where the load of a plan is above its processors, no schedule in quanta serves its tasks, whatever their numbers: so it is
/// beyond margins that are exact.
pub fn unserved_plans_have_no_schedule()
    ensures { UnservedPlansHaveNoSchedule }
{}
