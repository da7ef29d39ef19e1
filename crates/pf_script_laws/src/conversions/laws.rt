ghost use Rattle.pf_script_laws.specs.Conversions.Read.{ScriptsHaveNoFault, ScriptsSayTheirPlans};
ghost use Rattle.pf_script_laws.specs.Conversions.Written.{ConversionsHaveNoFault, ListsBecomePlans};

/// The records of a plan's script say, by the grammar of plans and in their order, its settings, how long a slot is, the
/// name of each task, its join, and the steps; so none of them has a fault.
pub fn scripts_say_their_plans()
    ensures { ScriptsSayTheirPlans }
{}

/// The script of a plan, read as a plan is, has no record with a fault: a check of it finds none.
pub fn scripts_have_no_fault()
    ensures { ScriptsHaveNoFault }
{}

/// What a list is made into is the script of a plan of its tasks that has no fault, on the processors that are given or on as
/// many as it needs, or nothing.
pub fn lists_become_plans()
    ensures { ListsBecomePlans }
{}

/// The script that the words of a conversion ask for is read without a fault, whatever the list.
pub fn conversions_have_no_fault()
    ensures { ConversionsHaveNoFault }
{}
