ghost use Rattle.std.specs.Prelude.{◌≡◌, ◌++◌, OnOk, map};
ghost use Rattle.std.specs.List.{flat_map};
ghost use Rattle.pf_script.specs.Messages.Words.{change_words, event_words, list_of, listed_word, one_of, record_words};

use crate::messages::kind::ScriptKind;
use std::alloc::AllocError;

/// The words of records.
pub(crate) fn record_words(kind: ScriptKind) -> &'static [&'static str]
    ensures { map (λ w. w.now) result.now ≡ record_words kind }
{
    match kind {
        ScriptKind::First => &[
            "settings", "join", "leave", "delay", "alter", "strike", "strict", "step",
        ],
        ScriptKind::Second => &[
            "settings", "join", "leave", "delay", "limit", "alter", "strike", "strict", "step",
        ],
        ScriptKind::Plan => &[
            "settings", "slot", "name", "join", "leave", "delay", "limit", "label", "alter",
            "strike", "strict", "step",
        ],
    }
}

/// The words of changes.
pub(crate) fn change_words(kind: ScriptKind) -> &'static [&'static str]
    ensures { map (λ w. w.now) result.now ≡ change_words kind }
{
    match kind {
        ScriptKind::First => &["join", "leave", "delay", "alter", "strike"],
        ScriptKind::Second => &["join", "leave", "delay", "limit", "alter", "strike"],
        ScriptKind::Plan => &[
            "join", "leave", "delay", "limit", "label", "alter", "strike",
        ],
    }
}

/// The words of events.
pub(crate) fn event_words(kind: ScriptKind) -> &'static [&'static str]
    ensures { map (λ w. w.now) result.now ≡ event_words kind }
{
    match kind {
        ScriptKind::First => &["join", "leave", "delay"],
        ScriptKind::Second | ScriptKind::Plan => &["join", "leave", "delay", "limit"],
    }
}

/// Appends that it is one of these words.
pub(crate) fn push_one_of(text: &mut Vec<u8>, words: &[&str]) -> Result<(), AllocError>
    ensures { OnOk result (text.new.items ≡ text.old.items ++ one_of (map (λ w. w.now) words.now)) }
{
    text.extend_from_slice(b"one of ")?;
    push_list(text, words)
}

/// Appends words with commas between.
#[tactic(auto, using(crate::proofs::MessagesLemmas::Listed::list_of_words, crate::proofs::MessagesLemmas::Listed::list_of_none))]
fn push_list(text: &mut Vec<u8>, words: &[&str]) -> Result<(), AllocError>
    ensures { OnOk result (text.new.items ≡ text.old.items ++ list_of (map (λ w. w.now) words.now)) }
{
    match words {
        [] => Ok(()),
        [first, rest @ ..] => {
            text.extend_from_slice(first.as_bytes())?;
            push_listed(text, rest)
        }
    }
}

/// Appends words, each after a comma.
fn push_listed(text: &mut Vec<u8>, words: &[&str]) -> Result<(), AllocError>
    ensures { OnOk result (text.new.items ≡ text.old.items ++ flat_map (λ w. listed_word w.now) words.now) }
{
    for word in words {
        text.extend_from_slice(b", ")?;
        text.extend_from_slice(word.as_bytes())?;
    }
    Ok(())
}
