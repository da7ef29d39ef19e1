ghost use Rattle.pf_script.specs.Check.Laws.{FirstFaultEndsReading, ReadRecordsHaveNoFault, ReadScriptsHaveNoFault};

/// A record has no fault exactly where it is read, the first fault of a script lies in the record at which its reading
/// ends, and a script has no fault exactly where all of it is read.
pub fn the_first_fault_ends_the_reading()
    ensures records { ReadRecordsHaveNoFault }
    ensures first { FirstFaultEndsReading }
    ensures scripts { ReadScriptsHaveNoFault }
{}
