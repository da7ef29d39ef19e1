ghost use Rattle.pf_run.specs.Examples.{WorkedExamples};
ghost use Rattle.pf_run.specs.Laws.{FirstAreComputed, OneRun, RunIsComputed, RunsBegin, RunsRestOnPast};

/// A scenario has one run over a number of slots.
pub fn there_is_one_run()
    ensures { OneRun }
{}

/// The first slots of a run are the run over that many slots.
pub fn runs_begin_alike()
    ensures { RunsBegin }
{}

/// A run rests on the settings and on the events of its slots alone.
pub fn runs_rest_on_the_past()
    ensures { RunsRestOnPast }
{}

/// The first of some keys, in the order, are those that are computed from how many precede each.
pub fn the_first_keys_are_computed()
    ensures { FirstAreComputed }
{}

/// The run that is computed slot by slot, each event judged after the last, is the run.
pub fn the_computed_run_is_the_run()
    ensures { RunIsComputed }
{}

/// The worked examples are runs.
pub fn worked_examples_are_runs()
    ensures { WorkedExamples }
{}
