ghost use Rattle.pf_why.specs.Examples.{WorkedRankings};
ghost use Rattle.pf_why.specs.Laws.{FirstOnesRun, RulesDecide};

/// Of the ranking of a slot the first ones, as many as there are processors in use, are those that run in it, in this order.
pub fn the_first_ones_run()
    ensures { FirstOnesRun }
{}

/// Of two subtasks, one before the other in the order of PD2, the rule names the component by which it comes before, and the
/// components that the order looks at before that one are equal.
pub fn rules_decide()
    ensures { RulesDecide }
{}

/// The rankings of the worked examples, one for each tie of PD2.
pub fn worked_examples_are_ranked()
    ensures { WorkedRankings }
{}
