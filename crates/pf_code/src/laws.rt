ghost use Rattle.pf_code.specs.Examples.{WorkedArrays};
ghost use Rattle.pf_code.specs.Laws.{JobsAreWithinBounds, NamesEndNoComment, SymbolsDiffer, TableRepeats};

use pf_laws::repetition::the_first_span_is_the_whole_schedule;

/// Where a table says that it repeats, each slot of the run, however long it goes on, has the tasks of its row.
pub fn a_table_repeats()
    ensures { TableRepeats }
{
    the_first_span_is_the_whole_schedule();
}

/// No two tasks have the same symbol.
pub fn symbols_differ()
    ensures { SymbolsDiffer }
{}

/// No byte of a task's name ends the comment in which it stands.
pub fn names_end_no_comment()
    ensures { NamesEndNoComment }
{}

/// A job is done within its bound: the subtasks after those that ran before it came, as many as a job has, are due within it.
pub fn jobs_are_within_bounds()
    ensures { JobsAreWithinBounds }
{}

/// The tables of the worked examples, byte for byte.
pub fn worked_arrays_are_told()
    ensures { WorkedArrays }
{}
