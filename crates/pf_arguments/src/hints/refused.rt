ghost use Rattle.std.specs.Prelude.{◌≡◌, IfOk, map};
ghost use Rattle.pf_arguments.specs.Hints.Refused.{begins_short, hint_by, is_told_whole, refused_hint};

use crate::hints::command::command_hint;
use crate::hints::help::help_hint;
use crate::hints::script::script_hint;
use crate::hints::words::{has_script, is_command};
use std::alloc::{AllocError, Global};
use std::convert::AsStr;

/// What would be right in place of words that the program does not take, those that are shown quoted for a POSIX shell; nothing where
/// nothing is said of that.
///
/// # Errors
///
/// Where memory is refused.
pub(crate) fn refused_hint<S: AsStr>(alloc: Global, words: &[S]) -> Result<Vec<u8>, AllocError>
    ensures { IfOk result (λ text. text.items ≡ refused_hint (map S.text words.now)) }
{
    match words {
        [first, rest @ ..] => hint_by(alloc, first.as_str(), rest),
        [] => Ok(Vec::new(alloc)),
    }
}

/// By the first word.
fn hint_by<S: AsStr>(alloc: Global, first: &str, words: &[S]) -> Result<Vec<u8>, AllocError>
    ensures { IfOk result (λ text. text.items ≡ hint_by first.now (map S.text words.now)) }
{
    if is_command(first) {
        return command_hint(alloc, first, words);
    }
    if first == "help" {
        return help_hint(alloc, words);
    }
    if first == "version" || first == "-v" {
        return Vec::from_slice(alloc, b"pfair --version");
    }
    script_hint(alloc, first, words)
}

/// Whether it is told whole why the program does not take words: not of a run or a drill, but where one of them names a script.
#[tactic(auto, using(crate::proofs::HintsLemmas::Mapped::script_among))]
pub(crate) fn is_told_whole<S: AsStr>(words: &[S]) -> bool
    ensures { result ≡ is_told_whole (map S.text words.now) }
{
    !begins_short(words) || has_script(words)
}

/// Whether the first word is one of those whose messages are short.
fn begins_short<S: AsStr>(words: &[S]) -> bool
    ensures { result ≡ begins_short (map S.text words.now) }
{
    match words {
        [first, ..] => first.as_str() == "run" || first.as_str() == "drill",
        [] => false,
    }
}
