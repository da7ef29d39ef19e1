ghost use Rattle.std.specs.Prelude.{◌≡◌, IfOk};
ghost use Rattle.clap.specs.Words.{subcommand_rows_of};
ghost use Rattle.pf_arguments.specs.Asked.{IsPair, IsSound, file_found, file_of, name_of, pair_of};
ghost use Rattle.pf_arguments.specs.Diffs.{are_two, diff_of, options_of, pair_named, second_behind, since_of};

use crate::mistake::Mistake;
use crate::mistakes::text::mistake_text;
use crate::request::WordsFault;
use crate::script_pair::ScriptPair;
use crate::task::Task;
use crate::words::{has_flag, option_text, owned_name, read_file};
use clap::ArgMatches;
use pf_text::numbers::parse_number;
use pf_vocabulary::options::diff_options::DiffOptions;
use std::alloc::{AllocError, Global};

/// What a diff of one script is to tell.
pub(crate) fn read_diff(matches: &ArgMatches<'_>) -> Result<Task, Mistake>
    ensures task { result ≡ diff_of (subcommand_rows_of matches.now) }
    ensures sound { IfOk result IsSound }
{
    let since = read_since(matches)?;
    Ok(Task::Diff(since, read_options(matches)))
}

/// Whether two scripts are to be compared.
pub(crate) fn are_two(matches: &ArgMatches<'_>) -> bool
    ensures { result ≡ are_two (subcommand_rows_of matches.now) }
{
    option_text(matches, "diff", "second").is_some()
}

/// The two scripts that are to be compared.
pub(crate) fn read_pair(alloc: Global, matches: &ArgMatches<'_>) -> Result<ScriptPair, WordsFault>
    ensures { IsPair (subcommand_rows_of matches.now) (pair_of (subcommand_rows_of matches.now)) result }
{
    match read_since(matches) {
        Ok(None) => read_names(alloc, matches),
        Ok(Some(_)) => Err(WordsFault::Mistaken(mistake_text(
            alloc,
            matches,
            Mistake::SinceOfTwo,
        )?)),
        Err(mistake) => Err(WordsFault::Mistaken(mistake_text(alloc, matches, mistake)?)),
    }
}

/// The same, of which no record is told apart.
fn read_names(alloc: Global, matches: &ArgMatches<'_>) -> Result<ScriptPair, WordsFault>
    ensures { IsPair (subcommand_rows_of matches.now) (pair_named (options_of (subcommand_rows_of matches.now)) (file_found (subcommand_rows_of matches.now))
        (file_of (second_behind (subcommand_rows_of matches.now)))) result }
{
    let first = read_file(alloc, matches)?;
    let second = read_second(alloc, matches)?;
    if first.is_none() && second.is_none() {
        return Err(WordsFault::Mistaken(mistake_text(alloc, matches, Mistake::InputTwice)?));
    }
    let options = read_options(matches);
    Ok(ScriptPair {
        first,
        second,
        options,
    })
}

/// The file of the second script; none where standard input is meant.
fn read_second(alloc: Global, matches: &ArgMatches<'_>) -> Result<Option<String>, AllocError>
    ensures { IfOk result (λ file. name_of file ≡ file_of (second_behind (subcommand_rows_of matches.now))) }
{
    owned_name(alloc, option_text(matches, "diff", "second"))
}

/// How a diff is to be told, and to end.
fn read_options(matches: &ArgMatches<'_>) -> DiffOptions
    ensures { result ≡ options_of (subcommand_rows_of matches.now) }
{
    DiffOptions {
        summary: has_flag(matches, "diff", "summary"),
        exit_code: has_flag(matches, "diff", "exit-code"),
    }
}

/// The record from which on the changes are asked for; none where `--since` is left out.
fn read_since(matches: &ArgMatches<'_>) -> Result<Option<u64>, Mistake>
    ensures { result ≡ since_of (subcommand_rows_of matches.now) }
{
    let Some(text) = option_text(matches, "diff", "since") else {
        return Ok(None);
    };
    match parse_number(text.as_bytes()) {
        Some(0) | None => Err(Mistake::BadSince),
        Some(number) => Ok(Some(number)),
    }
}
