ghost use Rattle.std.specs.Prelude.{◌≡◌, ◌∷◌, [], IfOk, map};
ghost use Rattle.std.specs.List.{filter};
ghost use Rattle.pf_arguments.specs.Hints.Refused.{command_line, drill_hint, run_hint, script_hint, scripts_hint};
ghost use Rattle.pf_arguments.specs.Hints.Words.{is_script};

use crate::hints::words::{
    are_plain, has_script, is_of_run, is_script, push_spaced, push_words, scripts_among,
};
use pf_message::shell::push_shell_word;
use pf_text::character::is_plain;
use pf_vocabulary::options::format::Format;
use std::alloc::{AllocError, Global};
use std::convert::AsStr;

/// For words that ask for a run without its word, where one of them names a script. Words with a character that is not shown as it is
/// have no hint, as it could not be pasted.
#[tactic(auto, using(crate::proofs::HintsLemmas::Mapped::script_among, crate::proofs::HintsLemmas::Mapped::plain_among))]
pub(crate) fn script_hint<S: AsStr>(
    alloc: Global,
    first: &str,
    words: &[S],
) -> Result<Vec<u8>, AllocError>
    ensures { IfOk result (λ text. text.items ≡ script_hint first.now (map S.text words.now)) }
{
    let has_script = is_script(first.as_bytes()) || has_script(words);
    let are_plain = is_plain(first.as_bytes()) && are_plain(words);
    if has_script && are_plain {
        return run_hint(alloc, first, words);
    }
    Ok(Vec::new(alloc))
}

/// Whatever they name.
fn run_hint<S: AsStr>(alloc: Global, first: &str, words: &[S]) -> Result<Vec<u8>, AllocError>
    ensures { IfOk result (λ text. text.items ≡ run_hint first.now (map S.text words.now)) }
{
    if Format::named(first).is_some() {
        return command_line(alloc, b"pfair run -f ", first, words);
    }
    if is_of_run(first.as_bytes()) {
        return command_line(alloc, b"pfair run ", first, words);
    }
    Ok(Vec::new(alloc))
}

/// These words after others.
#[tactic(auto, using(crate::proofs::HintsLemmas::Mapped::spaced_texts))]
fn command_line<S: AsStr>(
    alloc: Global,
    front: &[u8],
    word: &str,
    words: &[S],
) -> Result<Vec<u8>, AllocError>
    ensures { IfOk result (λ text. text.items ≡ command_line front.now word.now (map S.text words.now)) }
{
    let mut text = Vec::new(alloc);
    text.extend_from_slice(front)?;
    push_shell_word(&mut text, word.as_bytes())?;
    push_words(&mut text, words)?;
    Ok(text)
}

/// For a drill of these words: it reads standard input.
pub(crate) fn drill_hint<S: AsStr>(alloc: Global, words: &[S]) -> Result<Vec<u8>, AllocError>
    ensures { IfOk result (λ text. text.items ≡ drill_hint (map S.text words.now)) }
{
    let mut text = Vec::new(alloc);
    if let [word] = words {
        let word = word.as_str().as_bytes();
        if is_script(word) && is_plain(word) {
            text.extend_from_slice(b"pfair drill < ")?;
            push_shell_word(&mut text, word)?;
        }
    }
    Ok(text)
}

/// For a run of several scripts: it reads one.
pub(crate) fn scripts_hint<S: AsStr>(alloc: Global, words: &[S]) -> Result<Vec<u8>, AllocError>
    ensures { IfOk result (λ text. text.items ≡ scripts_hint (filter is_script (map S.text words.now))) }
{
    several_hint(alloc, &scripts_among(alloc, words)?)
}

/// The same, of these scripts.
fn several_hint(alloc: Global, scripts: &[&str]) -> Result<Vec<u8>, AllocError>
    ensures { IfOk result (λ text. text.items ≡ scripts_hint (map (λ s. s.now) scripts.now)) }
{
    match scripts {
        [] | [_] => Ok(Vec::new(alloc)),
        [first, second] => diff_hint(alloc, first.as_bytes(), second.as_bytes()),
        _ => Vec::from_slice(alloc, b"run takes one file"),
    }
}

/// A diff of two scripts.
fn diff_hint(alloc: Global, first: &[u8], second: &[u8]) -> Result<Vec<u8>, AllocError>
    ensures { IfOk result (λ text. text.items ≡ scripts_hint (first.now ∷ second.now ∷ [])) }
{
    let mut text = Vec::new(alloc);
    if is_plain(first) && is_plain(second) {
        text.extend_from_slice(b"pfair diff ")?;
        push_shell_word(&mut text, first)?;
        push_spaced(&mut text, second)?;
    }
    Ok(text)
}
