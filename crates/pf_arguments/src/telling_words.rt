ghost use Rattle.std.specs.Prelude.{◌≡◌, option_map};
ghost use Rattle.clap.specs.Words.{subcommand_rows_of};
ghost use Rattle.pf_arguments.specs.Asked.{is_file, is_short, names_file, telling_of};
ghost use Rattle.pf_arguments.specs.CommandLine.{any_behind, any_flag};

use crate::telling::Telling;
use crate::words::{is_asked, option_text};
use clap::ArgMatches;

/// What words ask to be told.
pub(crate) fn read_telling(matches: &ArgMatches<'_>) -> Telling
    ensures { result ≡ telling_of (subcommand_rows_of matches.now) }
{
    let quiet = any_flag(matches, "quiet");
    let whole = !is_short(matches) || any_flag(matches, "notes") || names_file(matches);
    Telling {
        whole,
        notes: whole && !quiet,
        prompt: !quiet && any_text(matches, "file").is_none() && !is_asked(matches, "desk"),
    }
}

/// Whether messages are short where nothing asks for more: those of a run, with or without its word, and of a drill.
fn is_short(matches: &ArgMatches<'_>) -> bool
    ensures { result ≡ is_short (subcommand_rows_of matches.now) }
{
    match matches.subcommand() {
        Some((name, _)) => name == "run" || name == "drill",
        None => true,
    }
}

/// Whether they name a file, and not standard input.
fn names_file(matches: &ArgMatches<'_>) -> bool
    ensures { result ≡ names_file (subcommand_rows_of matches.now) }
{
    is_file(any_text(matches, "file")) || is_file(option_text(matches, "diff", "second"))
}

/// Whether a text is the name of a file.
fn is_file(name: Option<&str>) -> bool
    ensures { result ≡ is_file (option_map (λ text. text.now) name.entry) }
{
    match name {
        Some(name) => name != "-",
        None => false,
    }
}

/// Whether a flag stands after the subcommand, whichever that is.
fn any_flag(matches: &ArgMatches<'_>, flag: &str) -> bool
    ensures { result ≡ any_flag flag.now (subcommand_rows_of matches.now) }
{
    match any_text(matches, flag) {
        Some(text) => text == "true",
        None => false,
    }
}

/// The text of an option after the subcommand, whichever that is.
pub(crate) fn any_text<'a>(matches: &ArgMatches<'a>, option: &str) -> Option<&'a str>
    ensures { option_map (λ text. text.now) result ≡ any_behind option.now (subcommand_rows_of matches.now) }
{
    matches.subcommand()?.1.get_str(option)
}
