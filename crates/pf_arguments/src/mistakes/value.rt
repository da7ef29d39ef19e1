ghost use Rattle.std.specs.Prelude.{◌≡◌, codes, option_map};
ghost use Rattle.clap.specs.Words.{subcommand_rows_of};
ghost use Rattle.pf_arguments.specs.CommandLine.{any_behind};
ghost use Rattle.pf_arguments.specs.Mistakes.Values.{bad_end, format_in_use, is_good_end, mistaken_value};

use crate::mistake::Mistake;
use crate::telling_words::any_text;
use clap::ArgMatches;
use pf_text::numbers::parse_number;
use pf_vocabulary::questions::mistake::WhyMistake;

/// The value that a mistake names; none where it is no one word's, and of a conversion, whose mistakes have their own.
pub(crate) fn mistaken_value<'a>(matches: &ArgMatches<'a>, mistake: Mistake) -> Option<&'a str>
    ensures { option_map (λ text. text.now) result ≡ mistaken_value (subcommand_rows_of matches.now) mistake }
{
    match mistake {
        Mistake::UnknownFormat | Mistake::Why(WhyMistake::Format) => any_text(matches, "format"),
        Mistake::BadNumber => bad_end(matches),
        Mistake::NoRange
        | Mistake::Unranged
        | Mistake::NoCell
        | Mistake::NoWrap
        | Mistake::NoStyle
        | Mistake::NoTasks => Some(format_in_use(matches)),
        Mistake::BadCell => any_text(matches, "cell"),
        Mistake::BadWrap => any_text(matches, "wrap"),
        Mistake::BadStyle => any_text(matches, "style"),
        Mistake::BadTasks | Mistake::Why(WhyMistake::Task) => any_text(matches, "task"),
        Mistake::BadFailOn => any_text(matches, "fail-on"),
        Mistake::BadSince => any_text(matches, "since"),
        Mistake::Why(WhyMistake::Slot) => any_text(matches, "slot"),
        Mistake::SinceOfTwo | Mistake::InputTwice | Mistake::Convert(_) => None,
    }
}

/// The name of the format in use.
fn format_in_use<'a>(matches: &ArgMatches<'a>) -> &'a str
    ensures { result.now ≡ format_in_use (subcommand_rows_of matches.now) }
{
    match any_text(matches, "format") {
        Some(name) => name,
        None => "tables",
    }
}

/// The first end of a range that is no number.
fn bad_end<'a>(matches: &ArgMatches<'a>) -> Option<&'a str>
    ensures { option_map (λ text. text.now) result ≡ bad_end (any_behind (codes "from") (subcommand_rows_of matches.now)) (any_behind (codes "to") (subcommand_rows_of matches.now)) }
{
    let from = any_text(matches, "from");
    if is_good_end(from) {
        return any_text(matches, "to");
    }
    from
}

/// Whether an end of a range is left out, or a number.
fn is_good_end(end: Option<&str>) -> bool
    ensures { result ≡ is_good_end (option_map (λ text. text.now) end.entry) }
{
    match end {
        Some(text) => parse_number(text.as_bytes()).is_some(),
        None => true,
    }
}
