ghost use Rattle.std.specs.Prelude.{◌≡◌, IfOk, codes};
ghost use Rattle.clap.specs.Words.{subcommand_rows_of};
ghost use Rattle.pf_arguments.specs.Asked.{desk_named, file_found, name_of};
ghost use Rattle.pf_arguments.specs.CommandLine.{text_behind};
ghost use Rattle.pf_arguments.specs.Desks.{desk_given};

use crate::words::{has_flag, option_text, read_file};
use clap::ArgMatches;
use std::alloc::{AllocError, Global};

/// What words ask a desk for.
#[derive(Drop)]
pub struct DeskWords {
    /// The file of the script whose records come first; none where there is no such script.
    pub script: Option<String>,
    /// The file of the journal that keeps each record; none where there is no journal.
    pub journal: Option<String>,
    /// Whether each answer is a JSON object.
    pub json: bool,
    /// Whether nothing is told beside the answers: no sentences, no sums that changed, no prompt.
    pub quiet: bool,
}

/// The session that words ask for.
pub(crate) fn read_desk(alloc: Global, matches: &ArgMatches<'_>) -> Result<DeskWords, AllocError>
    ensures { IfOk result (λ desk. desk_named desk ≡ desk_given (file_found (subcommand_rows_of matches.now)) (subcommand_rows_of matches.now)) }
{
    let script = read_file(alloc, matches)?;
    let journal = read_journal(alloc, matches)?;
    Ok(DeskWords {
        script,
        journal,
        json: has_flag(matches, "desk", "json"),
        quiet: has_flag(matches, "desk", "quiet"),
    })
}

/// The file of the journal after `desk`; none where `--journal` is left out.
fn read_journal(alloc: Global, matches: &ArgMatches<'_>) -> Result<Option<String>, AllocError>
    ensures { IfOk result (λ file. name_of file ≡ text_behind (codes "desk") (codes "journal") (subcommand_rows_of matches.now)) }
{
    match option_text(matches, "desk", "journal") {
        Some(path) => Ok(Some(String::from_str(alloc, path)?)),
        None => Ok(None),
    }
}
