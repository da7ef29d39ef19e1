ghost use Rattle.std.specs.Prelude.{◌≡◌, ◌++◌, option_map, IfOk, OnOk};
ghost use Rattle.clap.specs.Words.{subcommand_rows_of};
ghost use Rattle.pf_arguments.specs.Asked.{IsMistakeText};
ghost use Rattle.pf_arguments.specs.Mistakes.Told.{mistake_line, told_with, value_shown};

use crate::conversion_words::convert_words;
use crate::mistake::Mistake;
use crate::mistakes::hint::mistake_hint;
use crate::mistakes::value::mistaken_value;
use crate::telling::Telling;
use crate::telling_words::{any_text, read_telling};
use clap::ArgMatches;
use pf_convert::list::message::push_hint_line;
use pf_text::quoted::push_quoted;
use std::alloc::{AllocError, Global};

/// What is told of a mistake: its line, in a whole message with the value, and where notes are told the line of a hint.
pub(crate) fn mistake_text(
    alloc: Global,
    matches: &ArgMatches<'_>,
    mistake: Mistake,
) -> Result<Vec<u8>, AllocError>
    ensures { IfOk result (λ text. IsMistakeText (subcommand_rows_of matches.now) mistake text.items) }
{
    if let Mistake::Convert(mistake) = mistake {
        let mut text = Vec::new(alloc);
        mistake.push_lines(alloc, &convert_words(matches), &mut text)?;
        return Ok(text);
    }
    told_with(
        alloc,
        read_telling(matches),
        mistake,
        mistaken_value(matches, mistake),
        any_text(matches, "file"),
    )
}

/// The same where so much is to be told, with this value, and this text of FILE.
fn told_with(
    alloc: Global,
    telling: Telling,
    mistake: Mistake,
    value: Option<&str>,
    file: Option<&str>,
) -> Result<Vec<u8>, AllocError>
    ensures { IfOk result (λ text. text.items ≡ told_with telling mistake (option_map (λ v. v.now) value.entry) (option_map (λ f. f.now) file.entry)) }
{
    let mut text = Vec::new(alloc);
    push_line(&mut text, telling.whole, mistake, value)?;
    if !telling.notes {
        return Ok(text);
    }
    let hint = mistake_hint(alloc, file, value.unwrap_or(""), mistake)?;
    push_hint_line(&mut text, &hint)?;
    Ok(text)
}

/// Adds the line of a message, whole or short.
fn push_line(
    text: &mut Vec<u8>,
    is_whole: bool,
    mistake: Mistake,
    value: Option<&str>,
) -> Result<(), AllocError>
    ensures { OnOk result (text.new.items ≡ text.old.items ++ mistake_line is_whole mistake (option_map (λ v. v.now) value.entry)) }
{
    if is_whole {
        text.extend_from_slice(mistake.whole_words().as_bytes())?;
        push_value(text, mistake, value)?;
    } else {
        text.extend_from_slice(mistake.words().as_bytes())?;
    }
    text.extend_from_slice(b"\n")
}

/// Adds the value that a whole message names.
fn push_value(text: &mut Vec<u8>, mistake: Mistake, value: Option<&str>) -> Result<(), AllocError>
    ensures { OnOk result (text.new.items ≡ text.old.items ++ value_shown mistake (option_map (λ v. v.now) value.entry)) }
{
    let Some(value) = value else {
        return Ok(());
    };
    text.extend_from_slice(mistake.before_value().as_bytes())?;
    push_quoted(text, value.as_bytes())
}
