ghost use Rattle.pf_script_laws.specs.Reopening.Asked.{DesksHaveScripts, ScriptsReopenDesks};
ghost use Rattle.pf_script_laws.specs.Reopening.Examples.{WorkedRenumbering};
ghost use Rattle.pf_script_laws.specs.Reopening.Renumbered.{EventsAreNumberedAnew, NumbersChangeNoRun};
ghost use Rattle.pf_script_laws.specs.Reopening.Reopen.{ScriptsAreReadAgain};
ghost use Rattle.pf_script_laws.specs.Reopening.Rerun.{ScheduleIsWrittenAgain, ScriptsRunAgain};
ghost use Rattle.pf_script_laws.specs.Reopening.Taken.{EventsAreTakenAgain};
ghost use Rattle.pf_script_laws.specs.Reopening.Titled.{TitledScriptsRunAgain};
ghost use Rattle.pf_script_laws.specs.Reopening.Whole.{CommandsReopenDesks, DesksCanBeReopened};

/// The script of a desk tells what it was written of: the settings, an insert of each event by number, and the steps; no record
/// of it is bad.
pub fn scripts_are_read_again()
    ensures { ScriptsAreReadAgain }
{}

/// The events of a scenario can be inserted anew in rising order of their numbers: none is refused, and the scenario is
/// the same but for the numbers.
pub fn events_are_taken_again()
    ensures { EventsAreTakenAgain }
{}

/// Two scenarios that differ in the numbers of their events alone have the same rows, lags and misses, and the same
/// denials but for those numbers.
pub fn numbers_change_no_run()
    ensures { NumbersChangeNoRun }
{}

/// A scenario with its events numbered from 1 on, in the same order, is one, and differs in those numbers alone.
pub fn events_are_numbered_anew()
    ensures { EventsAreNumberedAnew }
{}

/// A desk that has answered an insert of each event of another, by number, and each of its steps, and no more, has
/// refused none. It has the same settings, slots stepped, rows, lags and misses, and the same events and denials but
/// for the numbers, which are 1, 2, .. in the same order. Such a desk there is for each.
pub fn commands_reopen_desks()
    ensures law { CommandsReopenDesks }
    ensures some { DesksCanBeReopened }
{}

/// A snapshot has a script, where limits are held in wide settings alone and the distance of checkpoints is one: it is
/// not too long, no record of it is bad, and it asks for a desk of the same settings, for those inserts and for those
/// steps.
pub fn desks_have_scripts()
    ensures { DesksHaveScripts }
{}

/// A desk that has answered what the script of another asks for is that desk, as `commands_reopen_desks` says.
pub fn scripts_reopen_desks()
    ensures { ScriptsReopenDesks }
{}

/// A run of the script of a snapshot, with whatever titles, ends with no bad record: it reports what was seen, with the events
/// numbered from 1 on, after the replies where its format has them.
pub fn scripts_run_again()
    ensures { ScriptsRunAgain }
{}

/// In the formats `schedule`, `lags`, `misses` and `script` it reports what was seen, byte for byte. In the last of them
/// it writes the very script that was run.
pub fn schedule_is_written_again()
    ensures { ScheduleIsWrittenAgain }
{}

/// The script of a snapshot as a plan, with names of tasks and the length of a slot, run in the format `script`, writes itself
/// byte for byte.
pub fn titled_scripts_run_again()
    ensures { TitledScriptsRunAgain }
{}

/// A worked example: its events numbered anew, its rows and its denials.
pub fn worked_example_is_numbered_anew()
    ensures { WorkedRenumbering }
{}
