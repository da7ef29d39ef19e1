ghost use Rattle.pf_change.specs.Examples.{WorkedChanges};

/// The texts and the ends of the worked scripts.
pub fn worked_changes_are_their_text()
    ensures { WorkedChanges }
{}
