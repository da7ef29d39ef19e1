ghost use Rattle.pf_arguments.specs.Examples.{WorkedWords};

/// What the worked words ask for.
pub fn worked_words_ask_so()
    ensures { WorkedWords }
{}
