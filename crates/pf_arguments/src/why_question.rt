ghost use Rattle.std.specs.Prelude.{◌≡◌, IfOk};
ghost use Rattle.clap.specs.Words.{subcommand_rows_of};
ghost use Rattle.pf_arguments.specs.Asked.{IsSound, why_of};

use crate::mistake::Mistake;
use crate::task::Task;
use crate::words::option_text;
use clap::ArgMatches;
use pf_vocabulary::questions::read::read_question;

/// What words ask of a slot.
pub(crate) fn read_why(matches: &ArgMatches<'_>) -> Result<Task, Mistake>
    ensures task { result ≡ why_of (subcommand_rows_of matches.now) }
    ensures sound { IfOk result IsSound }
{
    let slot = option_text(matches, "why", "slot");
    let format = option_text(matches, "why", "format");
    let task = option_text(matches, "why", "task");
    match read_question(slot, format, task) {
        Ok(question) => Ok(Task::Why(question)),
        Err(mistake) => Err(Mistake::Why(mistake)),
    }
}
