ghost use Rattle.pf_scenario.specs.Laws.{AreLimits, ChangesKeepScenarios, NumbersRise, OpeningIsScenario};

/// The laws of changes: a change that is not refused makes a scenario of a scenario, no change lowers the next
/// number, and a plan with no events is a scenario.
pub fn changes_keep_scenarios()
    ensures changes { ChangesKeepScenarios }
    ensures numbers { NumbersRise }
    ensures opening { OpeningIsScenario }
{}

/// The limits of settings, events and tasks, in numbers.
pub fn limits_are_numbers()
    ensures { AreLimits }
{}
