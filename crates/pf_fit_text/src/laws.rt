ghost use Rattle.pf_fit_text.specs.Examples.{WorkedFits};

/// The fits of the worked examples, byte for byte.
pub fn worked_fits_are_told()
    ensures { WorkedFits }
{}
