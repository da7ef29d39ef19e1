ghost use Rattle.std.specs.Prelude.{◌≡◌, ◌++◌, IfOk, OnOk, find, map, option_map};
ghost use Rattle.std.specs.List.{filter, flat_map, list_all, list_any};
ghost use Rattle.std.specs.Str.{bytes_eq};
ghost use Rattle.pf_text.specs.FileName.{is_plain};
ghost use Rattle.pf_arguments.specs.Hints.Words.{before_equals, is_command, is_list_word, is_of_run, is_script, run_words, spaced_word};

use pf_message::shell::push_shell_word;
use pf_text::character::is_plain;
use std::alloc::{AllocError, Global};
use std::convert::AsStr;

/// Appends a word as a shell reads it, after a space.
pub(crate) fn push_spaced(text: &mut Vec<u8>, word: &[u8]) -> Result<(), AllocError>
    ensures { OnOk result (text.new.items ≡ text.old.items ++ spaced_word word.now) }
{
    text.extend_from_slice(b" ")?;
    push_shell_word(text, word)
}

/// Appends words as a shell reads them, each after a space.
pub(crate) fn push_words<S: AsStr>(text: &mut Vec<u8>, words: &[S]) -> Result<(), AllocError>
    ensures { OnOk result (text.new.items ≡ text.old.items ++ flat_map (λ w. spaced_word (S.text w)) words.now) }
{
    for word in words {
        push_spaced(text, word.as_str().as_bytes())?;
    }
    Ok(())
}

/// Whether a word names a script.
pub(crate) fn is_script(word: &[u8]) -> bool
    ensures { result ≡ is_script word.now }
{
    word.ends_with(b".csv")
}

/// Whether one of the words names a script.
pub(crate) fn has_script<S: AsStr>(words: &[S]) -> bool
    ensures { result ≡ list_any (λ w. is_script (S.text w)) words.now }
{
    for word in words {
        if is_script(word.as_str().as_bytes()) {
            return true;
        }
    }
    false
}

/// Those of the words that name scripts.
pub(crate) fn scripts_among<'a, S: AsStr>(
    alloc: Global,
    words: &'a [S],
) -> Result<Vec<&'a str>, AllocError>
    ensures { IfOk result (λ scripts. map (λ s. s.now) scripts.items ≡ filter is_script (map S.text words.now)) }
{
    let mut scripts = Vec::new(alloc);
    for word in words {
        if is_script(word.as_str().as_bytes()) {
            scripts.push(word.as_str())?;
        }
    }
    Ok(scripts)
}

/// Whether each of the words is shown as it is.
pub(crate) fn are_plain<S: AsStr>(words: &[S]) -> bool
    ensures { result ≡ list_all (λ w. is_plain (S.text w)) words.now }
{
    for word in words {
        if !is_plain(word.as_str().as_bytes()) {
            return false;
        }
    }
    true
}

/// Whether this one is among the words.
pub(crate) fn has_word<S: AsStr>(name: &str, words: &[S]) -> bool
    ensures { result ≡ list_any (λ w. bytes_eq name.now (S.text w)) words.now }
{
    for word in words {
        if name == word.as_str() {
            return true;
        }
    }
    false
}

/// The first of the words, each up to its first `=`, that is one of a list of tasks.
pub(crate) fn first_listed<'a, S: AsStr>(words: &'a [S]) -> Option<&'a [u8]>
    ensures { option_map (λ w. w.now) result ≡ find is_list_word (map before_equals (map S.text words.now)) }
{
    for word in words {
        let front = before_equals(word.as_str().as_bytes());
        if is_list_word(front) {
            return Some(front);
        }
    }
    None
}

/// A word up to its first `=`.
fn before_equals(word: &[u8]) -> &[u8]
    ensures { result.now ≡ before_equals word.now }
{
    let mut end = 0;
    while end < word.len() && word[end] != b'=' {
        end += 1;
    }
    &word[..end]
}

/// Whether a word is one of those of a list of tasks.
fn is_list_word(word: &[u8]) -> bool
    ensures { result ≡ is_list_word word.now }
{
    word == b"--quantum".as_slice()
        || word == b"--processors".as_slice()
        || word == b"--switch".as_slice()
        || word == b"--arrivals".as_slice()
        || word == b"--unit".as_slice()
}

/// Whether a word is one of those of `run` that begin with `-`.
fn is_run_word(word: &[u8]) -> bool
    ensures { result ≡ list_any (bytes_eq word.now) run_words }
{
    word == b"--format".as_slice()
        || word == b"--output".as_slice()
        || word == b"-o".as_slice()
        || word == b"--from".as_slice()
        || word == b"--to".as_slice()
        || word == b"--task".as_slice()
        || word == b"--fail-on".as_slice()
        || word == b"--cell".as_slice()
        || word == b"--wrap".as_slice()
        || word == b"--style".as_slice()
        || word == b"--notes".as_slice()
        || word == b"-q".as_slice()
        || word == b"--quiet".as_slice()
}

/// Whether a first word asks for a run.
pub(crate) fn is_of_run(word: &[u8]) -> bool
    ensures { result ≡ is_of_run word.now }
{
    is_script(word) || word.starts_with(b"-f") || is_run_word(before_equals(word))
}

/// Whether a word is a command.
pub(crate) fn is_command(word: &str) -> bool
    ensures { result ≡ is_command word.now }
{
    matches!(
        word,
        "fit" | "run" | "why" | "check" | "diff" | "convert" | "desk" | "drill"
    )
}
