ghost use Rattle.std.specs.Prelude.{◌≡◌, IfOk, map, option_map};
ghost use Rattle.pf_arguments.specs.Hints.Refused.{command_hint, flag_hint, json_format, listed_hint, takes_lists, unlisted_hint};

use crate::hints::script::{drill_hint, scripts_hint};
use crate::hints::words::{first_listed, has_word};
use std::alloc::{AllocError, Global};
use std::convert::AsStr;

/// For words behind a command: the first hint that is one.
pub(crate) fn command_hint<S: AsStr>(
    alloc: Global,
    command: &str,
    words: &[S],
) -> Result<Vec<u8>, AllocError>
    ensures { IfOk result (λ text. text.items ≡ command_hint command.now (map S.text words.now)) }
{
    let hint = flag_hint(command, words);
    if hint.is_empty() {
        return unlisted_hint(alloc, command, words);
    }
    Vec::from_slice(alloc, hint.as_bytes())
}

/// For the version, and for JSON, which has a format.
#[tactic(auto, using(crate::proofs::HintsLemmas::Mapped::word_among))]
fn flag_hint<S: AsStr>(command: &str, words: &[S]) -> &'static str
    ensures { result.now ≡ flag_hint command.now (map S.text words.now) }
{
    if has_word("--version", words) || has_word("-V", words) {
        return "pfair --version";
    }
    if has_word("--json", words) {
        return json_format(command);
    }
    ""
}

/// The words that ask for JSON of a command.
fn json_format(command: &str) -> &'static str
    ensures { result.now ≡ json_format command.now }
{
    match command {
        "run" => "-f full",
        "fit" | "convert" | "why" => "-f json",
        _ => "",
    }
}

/// Whether a command takes a list of tasks.
fn takes_lists(command: &str) -> bool
    ensures { result ≡ takes_lists command.now }
{
    command == "fit" || command == "convert"
}

/// For words of a list of tasks behind a command that takes none; else for scripts that it does not take.
fn unlisted_hint<S: AsStr>(alloc: Global, command: &str, words: &[S]) -> Result<Vec<u8>, AllocError>
    ensures { IfOk result (λ text. text.items ≡ unlisted_hint command.now (map S.text words.now)) }
{
    if takes_lists(command) {
        return Ok(Vec::new(alloc));
    }
    listed_hint(alloc, first_listed(words), command, words)
}

/// The same, by the first word of such a list.
fn listed_hint<S: AsStr>(
    alloc: Global,
    listed: Option<&[u8]>,
    command: &str,
    words: &[S],
) -> Result<Vec<u8>, AllocError>
    ensures { IfOk result (λ text. text.items ≡ listed_hint (option_map (λ w. w.now) listed.entry) command.now (map S.text words.now)) }
{
    let Some(listed) = listed else {
        return match command {
            "drill" => drill_hint(alloc, words),
            "run" => scripts_hint(alloc, words),
            _ => Ok(Vec::new(alloc)),
        };
    };
    let mut text = Vec::from_slice(alloc, listed)?;
    text.extend_from_slice(b" is a word of pfair fit and pfair convert")?;
    Ok(text)
}
