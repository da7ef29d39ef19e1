ghost use Rattle.std.specs.Prelude.{◌≡◌, codes, IfOk};
ghost use Rattle.clap.specs.Words.{subcommand_rows_of};
ghost use Rattle.pf_convert.specs.Words.Fits.{fit_of};
ghost use Rattle.pf_arguments.specs.Asked.{IsSound, convert_texts, fit_format_given, fit_given};
ghost use Rattle.pf_arguments.specs.CommandLine.{any_behind};

use crate::conversion_words::convert_words;
use crate::mistake::Mistake;
use crate::task::Task;
use crate::telling_words::any_text;
use clap::ArgMatches;
use pf_convert::words::fit::read_fit as read_words;
use pf_vocabulary::options::fit_format::FitFormat;

/// How words ask whether a script or a list of tasks fits.
pub(crate) fn read_fit(matches: &ArgMatches<'_>) -> Result<Task, Mistake>
    ensures task { result ≡ fit_given (fit_of (fit_format_given (any_behind (codes "format") (subcommand_rows_of matches.now))) (convert_texts (subcommand_rows_of matches.now))) }
    ensures sound { IfOk result IsSound }
{
    match read_words(fit_format(matches), &convert_words(matches)) {
        Ok(asked) => Ok(Task::Fit(asked)),
        Err(mistake) => Err(Mistake::Convert(mistake)),
    }
}

/// The format of a fit, text where `--format` is left out; none where it names none.
fn fit_format(matches: &ArgMatches<'_>) -> Option<FitFormat>
    ensures { result ≡ fit_format_given (any_behind (codes "format") (subcommand_rows_of matches.now)) }
{
    match any_text(matches, "format") {
        Some(name) => FitFormat::named(name),
        None => Some(FitFormat::Text),
    }
}
