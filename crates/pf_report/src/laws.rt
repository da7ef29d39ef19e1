ghost use Rattle.pf_report.specs.Examples.{WorkedReports};

/// The reports of the worked examples, byte for byte.
pub fn worked_examples_are_reported()
    ensures { WorkedReports }
{}
