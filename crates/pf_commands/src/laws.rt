ghost use Rattle.pf_commands.specs.Examples.{WorkedScripts};
ghost use Rattle.pf_commands.specs.Laws.{NothingIsWrittenOutside, RunsEndAtTheFirstFault};

/// A run ends at the first fault that a check finds in its script. Where it finds none the run ends well, but where the range
/// of its format can't be shown of the slots stepped.
pub fn runs_end_at_the_first_fault()
    ensures { RunsEndAtTheFirstFault }
{}

/// The texts and the ends of the worked scripts.
pub fn worked_scripts_are_their_text()
    ensures { WorkedScripts }
{}

/// A script has no text where the range of its format can't be shown of the slots stepped.
pub fn nothing_is_written_outside()
    ensures { NothingIsWrittenOutside }
{}
