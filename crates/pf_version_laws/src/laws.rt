ghost use Rattle.pf_version_laws.specs.Retold.{ScriptsAreRetold};
ghost use Rattle.pf_version_laws.specs.Titles.{TitlesAreTold};

/// The script of version 2 that belongs to a plan, read as a script, tells the same: its settings, and line by
/// line what the records of a plan ask for, with labels for the numbers that a desk gives. Where a record of these is bad, the
/// first bad one of the text stands for it, and else none is bad.
pub fn scripts_are_retold()
    ensures { ScriptsAreRetold }
{}

/// The names that a plan tells are texts, each of a task of 1 to 4,095, by task, no two of them the same; the length
/// of a slot that it tells is one that a script may give.
pub fn titles_are_told()
    ensures { TitlesAreTold }
{}
