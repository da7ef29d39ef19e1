ghost use Rattle.pf_tally.specs.Examples.{WorkedTallies};
ghost use Rattle.pf_tally.specs.Told.{WorkedFigures};

/// The lags and misses of the worked examples.
pub fn worked_examples_are_tallied()
    ensures { WorkedTallies }
{}

/// The figures of the worked examples.
pub fn worked_examples_are_told()
    ensures { WorkedFigures }
{}
