//! What is told of words that ask for no task.
ghost use Rattle.std.specs.Prelude.{◌≡◌, ◌≢◌, [], IfOk, map, string_bytes};
ghost use Rattle.pf_arguments.specs.Lines.{shown_lines};
ghost use Rattle.pf_arguments.specs.Texts.{EndsWithLesson, IsCut, IsRefusal, IsWithoutTip, version_line};

use crate::hints::refused::{is_told_whole, refused_hint};
use crate::lessons::lesson_of;
use crate::lines::push_lines;
use pf_convert::list::message::push_hint_line;
use std::alloc::{AllocError, Global};
use std::convert::AsStr;
use std::fmt::Display;

/// What the version is told by, after the program's name.
pub const VERSION: &str = "0.4.0";

/// Help: what the grammar tells of the command that words name, and then its lesson.
///
/// # Errors
///
/// Where memory is refused.
pub(crate) fn help_text<E: Display, S: AsStr>(
    alloc: Global,
    told: &E,
    words: &[S],
) -> Result<String, AllocError>
    ensures { IfOk result (λ text. EndsWithLesson (map S.text words.now) (string_bytes text)) }
{
    let mut text = format!(in alloc; "{told}\n")?;
    text.push_str(lesson_of(words))?;
    Ok(text)
}

/// The version, as a line.
///
/// # Errors
///
/// Where memory is refused.
pub(crate) fn version_text(alloc: Global) -> Result<String, AllocError>
    ensures { IfOk result (λ text. string_bytes text ≡ version_line) }
{
    format!(in alloc; "pfair {VERSION}\n")
}

/// Why the grammar does not take the words, which is some text, and a hint where it is told whole: where there is no text, memory was
/// refused for it. The grammar's text has words as they were given, so that it is shown as lines are. Told whole, it is without
/// its tip how a word is passed as a value.
///
/// # Errors
///
/// Where memory is refused.
pub(crate) fn refusal_text<E: Display, S: AsStr>(
    alloc: Global,
    error: &E,
    words: &[S],
) -> Result<Vec<u8>, AllocError>
    ensures { IfOk result (λ text. IsRefusal (map S.text words.now) text.items) }
{
    let why = format!(in alloc; "{error}")?;
    if !is_told_whole(words) {
        return shown(alloc, &why);
    }
    let mut text = shown(alloc, &without_tip(alloc, &why)?)?;
    push_hint_line(&mut text, &refused_hint(alloc, words)?)?;
    Ok(text)
}

/// A text of lines as it is shown, which is some text: where there is none, memory was refused for it.
fn shown(alloc: Global, lines: &str) -> Result<Vec<u8>, AllocError>
    ensures lines { IfOk result (λ text. text.items ≡ shown_lines lines.now) }
    ensures some { IfOk result (λ text. text.items ≢ []) }
{
    let mut text = Vec::new(alloc);
    push_lines(&mut text, lines)?;
    if text.is_empty() {
        return Err(AllocError);
    }
    Ok(text)
}

/// A text of the grammar without its tip how a word is passed as a value, and the empty line behind that.
fn without_tip(alloc: Global, all: &str) -> Result<String, AllocError>
    ensures { IfOk result (λ told. IsWithoutTip all.now (string_bytes told)) }
{
    match all.split_once("\n  tip: to pass '") {
        Some((front, rest)) => cut(alloc, all, front, rest),
        None => String::from_str(alloc, all),
    }
}

/// The front of a text and what stands behind the first empty line of its rest; all of it where there is no such line.
fn cut(alloc: Global, all: &str, front: &str, rest: &str) -> Result<String, AllocError>
    ensures { IfOk result (λ told. IsCut all.now front.now rest.now (string_bytes told)) }
{
    match rest.split_once("\n\n") {
        Some((_, behind)) => format!(in alloc; "{front}\n{behind}"),
        None => String::from_str(alloc, all),
    }
}
