ghost use Rattle.pf_chart.specs.Examples.{WorkedCharts};

/// The charts of the worked examples, byte for byte.
pub fn worked_examples_are_charted()
    ensures { WorkedCharts }
{}
