ghost use Rattle.std.specs.Prelude.{◌≡◌, option_map, IfOk};
ghost use Rattle.clap.specs.Words.{subcommand_rows_of};
ghost use Rattle.pf_convert.specs.Words.Reading.{conversion_of, texts_of};
ghost use Rattle.pf_arguments.specs.CommandLine.{any_behind};
ghost use Rattle.pf_arguments.specs.Asked.{IsSound, convert_given, convert_texts};

use crate::mistake::Mistake;
use crate::task::Task;
use crate::telling_words::any_text;
use clap::ArgMatches;
use pf_convert::words::read::{ConvertWords, read_conversion};

/// How words ask for a list to be converted.
pub(crate) fn read_convert(matches: &ArgMatches<'_>) -> Result<Task, Mistake>
    ensures task { result ≡ convert_given (conversion_of (convert_texts (subcommand_rows_of matches.now))) }
    ensures sound { IfOk result IsSound }
{
    match read_conversion(&convert_words(matches)) {
        Ok(conversion) => Ok(Task::Convert(conversion)),
        Err(mistake) => Err(Mistake::Convert(mistake)),
    }
}

/// The texts of the words of a conversion, or of a fit.
pub(crate) fn convert_words<'a>(matches: &ArgMatches<'a>) -> ConvertWords<'a>
    ensures { texts_of result ≡ convert_texts (subcommand_rows_of matches.now) }
{
    ConvertWords {
        format: convert_text(matches, "format"),
        unit: convert_text(matches, "unit"),
        quantum: convert_text(matches, "quantum"),
        switch: convert_text(matches, "switch"),
        processors: convert_text(matches, "processors"),
        arrivals: convert_text(matches, "arrivals"),
    }
}

/// The text of an option of it.
fn convert_text<'a>(matches: &ArgMatches<'a>, option: &str) -> Option<&'a [u8]>
    ensures { option_map (λ text. text.now) result ≡ any_behind option.now (subcommand_rows_of matches.now) }
{
    Some(any_text(matches, option)?.as_bytes())
}
