ghost use Rattle.std.specs.Prelude.{◌≡◌, ◌≢◌, map, IfOk};
ghost use Rattle.clap.specs.Words.{kind_of, subcommand_rows_of};
ghost use Rattle.clap.specs.declared.error.kind.ErrorKind.TheVariants as kind;
ghost use Rattle.pf_arguments.specs.Outputs.{output_asked, output_found, output_named};

use crate::command_line::program;
use crate::telling_words::any_text;
use crate::words::{is_asked, owned_name};
use clap::ArgMatches;
use clap::error::ErrorKind;
use std::alloc::{AllocError, Global};
use std::convert::AsStr;

/// Where words have an answer written, in place of standard output.
#[derive(Drop)]
pub struct OutputWords {
    /// The path of the file.
    pub path: String,
    /// Whether they ask for a test, whose status 1 is an answer: for a check or a diff.
    pub is_test: bool,
}

/// The file to which the program's words, its own name not among them, have the answer written by `--output`; none where they name
/// none, or `-`, which is standard output, and where they are not the program's.
///
/// # Errors
///
/// Where memory is refused.
pub fn read_output<S: AsStr>(alloc: Global, words: &[S]) -> Result<Option<OutputWords>, AllocError>
    ensures { IfOk result (λ output. output_named output ≡ output_asked (map S.text words.now)) }
{
    match program(alloc)?.try_get_matches_from(words) {
        Ok(matches) => output_in(alloc, &matches),
        Err(error) => {
            check_memory(&error)?;
            Ok(None)
        }
    }
}

/// That the grammar takes no words for another reason than that memory was refused.
///
/// # Errors
///
/// Where it was.
fn check_memory(error: &clap::Error) -> Result<(), AllocError>
    ensures { IfOk result (λ _. kind_of error.now ≢ kind.OutOfMemory) }
{
    if error.kind() == ErrorKind::OutOfMemory {
        return Err(AllocError);
    }
    Ok(())
}

/// The same of words that the grammar takes.
fn output_in(alloc: Global, matches: &ArgMatches<'_>) -> Result<Option<OutputWords>, AllocError>
    ensures { IfOk result (λ output. output_named output ≡ output_found (subcommand_rows_of matches.now)) }
{
    let is_test = is_asked(matches, "check") || is_asked(matches, "diff");
    match owned_name(alloc, any_text(matches, "output"))? {
        Some(path) => Ok(Some(OutputWords { path, is_test })),
        None => Ok(None),
    }
}
