ghost use Rattle.pf_diff.specs.Examples.{WorkedDiffs, WorkedSummaries};

/// What differs in the worked examples, byte for byte.
pub fn worked_examples_are_compared()
    ensures { WorkedDiffs }
{}

/// The summaries of the worked examples, byte for byte, and whether these differ.
pub fn worked_examples_are_summed_up()
    ensures { WorkedSummaries }
{}
