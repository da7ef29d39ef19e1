ghost use Rattle.std.specs.Prelude.{◌≡◌, ◌==◌, ◌++◌, ◌<◌, [], false, unwrap_or, map, IfOk, IfSome, OnOk, length};
ghost use Rattle.std.specs.List.{position};
ghost use Rattle.pf_message.specs.Nearness.{near_name};
ghost use Rattle.pf_vocabulary.specs.declared.names.unit.Unit.TheVariants.{Millisecond};
ghost use Rattle.pf_convert.specs.List.Hints.{no_time_hint, time_or_nothing, with_points};
ghost use Rattle.pf_convert.specs.List.Times.{time_in};
ghost use Rattle.pf_convert.specs.Words.Reading.{texts_of};
ghost use Rattle.pf_convert.specs.Words.Texts.{convert_mistake_text, mistake_hint, mistake_words, mistaken_text, or_what_times_are, quanta_hint, value_shown};

use crate::list::hints::{push_no_time_hint, with_points};
use crate::list::message::push_hint_line;
use crate::list::time::{parse_time, places_of};
use crate::words::read::ConvertWords;
use pf_message::nearness::near_name;
use pf_text::columns::decimals::push_fewest_places;
use pf_text::quoted::push_quoted;
use pf_vocabulary::names::unit::Unit;
use std::alloc::{AllocError, Global};

/// Which word of a conversion or a fit is mistaken, in the order in which they are looked at.
#[derive(Clone, Copy)]
pub enum ConvertMistake {
    /// `--format` names none of `script`, `table` and `json`.
    Format,
    /// `--format` of a fit names neither `text` nor `json`.
    FitFormat,
    /// `--unit` names none of `ns`, `us`, `ms` and `s`.
    Unit,
    /// `--quantum` isn't 1 to 64 times above 0 and up to a second, joined by commas, no two of them equal.
    Quantum,
    /// `--switch` is no time.
    Switch,
    /// `--processors` is no number of 1 to 64.
    Processors,
    /// `--arrivals` is neither `aligned` nor `any`.
    Arrivals,
    /// The switch is not below this quantum, the first of them, which is told in this unit.
    SwitchNotBelow(Unit, u64),
    /// `--format script` stands beside several quanta.
    SeveralQuanta,
}

impl ConvertMistake {
    /// Adds what is told of it where these are the words: a line, and where something is near that would be right another one.
    ///
    /// # Errors
    ///
    /// Where memory is refused: a front of it was added.
    pub fn push_lines(
        self,
        alloc: Global,
        words: &ConvertWords<'_>,
        text: &mut Vec<u8>,
    ) -> Result<(), AllocError>
        ensures { OnOk result (text.new.items ≡ text.old.items ++ convert_mistake_text (texts_of words.now) self) }
    {
        text.extend_from_slice(self.words().as_bytes())?;
        self.push_value(words, text)?;
        text.extend_from_slice(b"\n")?;
        let hint = self.hint(alloc, words)?;
        push_hint_line(text, &hint)
    }

    /// What is told of it, before the value that it names.
    fn words(self) -> &'static str
        ensures { result.now ≡ mistake_words self }
    {
        match self {
            ConvertMistake::Format | ConvertMistake::FitFormat => "unknown format ",
            ConvertMistake::Unit => "--unit takes ns, us, ms or s, not ",
            ConvertMistake::Quantum => {
                "--quantum takes 1 to 64 times above 0 and up to 1 s, joined by commas, each once, not "
            }
            ConvertMistake::Switch => "--switch takes a time, not ",
            ConvertMistake::Processors => "--processors takes a number of 1 to 64, not ",
            ConvertMistake::Arrivals => "--arrivals takes aligned or any, not ",
            ConvertMistake::SwitchNotBelow(_, _) => "--switch is not below the quantum ",
            ConvertMistake::SeveralQuanta => "--format script takes one quantum",
        }
    }

    /// The text of the word that is mistaken, without a byte where it is none alone.
    fn word<'a>(self, words: &ConvertWords<'a>) -> &'a [u8]
        ensures { result.now ≡ mistaken_text (texts_of words.now) self }
    {
        let word = match self {
            ConvertMistake::Format | ConvertMistake::FitFormat => words.format,
            ConvertMistake::Unit => words.unit,
            ConvertMistake::Quantum => words.quantum,
            ConvertMistake::Switch => words.switch,
            ConvertMistake::Processors => words.processors,
            ConvertMistake::Arrivals => words.arrivals,
            ConvertMistake::SwitchNotBelow(_, _) | ConvertMistake::SeveralQuanta => None,
        };
        match word {
            Some(word) => word,
            None => &[],
        }
    }

    /// Adds the value that it names: the word, or a quantum as a decimal.
    fn push_value(self, words: &ConvertWords<'_>, text: &mut Vec<u8>) -> Result<(), AllocError>
        ensures { OnOk result (text.new.items ≡ text.old.items ++ value_shown (texts_of words.now) self) }
    {
        match self {
            ConvertMistake::SwitchNotBelow(unit, quantum) => {
                push_fewest_places(text, places_of(unit), u128::from(quantum))
            }
            ConvertMistake::SeveralQuanta => Ok(()),
            _ => push_quoted(text, self.word(words)),
        }
    }

    /// What would be right in place of the word.
    fn hint(self, alloc: Global, words: &ConvertWords<'_>) -> Result<Vec<u8>, AllocError>
        ensures { IfOk result (λ text. text.items ≡ mistake_hint (texts_of words.now) self) }
    {
        let word = self.word(words);
        match self {
            ConvertMistake::Format => {
                let names = ["script", "table", "json"];
                near_hint(alloc, word, &names, "script, table, json")
            }
            ConvertMistake::FitFormat => near_hint(alloc, word, &["text", "json"], "text, json"),
            ConvertMistake::Unit => near_hint(alloc, word, &["ns", "us", "ms", "s"], ""),
            ConvertMistake::Quantum => quanta_hint(alloc, word),
            ConvertMistake::Switch => switch_hint(alloc, word),
            ConvertMistake::Arrivals => near_hint(alloc, word, &["aligned", "any"], ""),
            ConvertMistake::SeveralQuanta => Vec::from_slice(alloc, b"-f table compares several"),
            ConvertMistake::Processors | ConvertMistake::SwitchNotBelow(_, _) => {
                Ok(Vec::new(alloc))
            }
        }
    }
}

/// The name that a word is near to; this text where it is near to none.
fn near_hint(alloc: Global, word: &[u8], names: &[&str], none: &str) -> Result<Vec<u8>, AllocError>
    ensures { IfOk result (λ text. text.items ≡ unwrap_or (near_name word.now (map (λ n. n.now) names.now)) none.now) }
{
    match near_name(alloc, word, names)? {
        Some(name) => Vec::from_slice(alloc, name.as_bytes()),
        None => Vec::from_slice(alloc, none.as_bytes()),
    }
}

/// The decimal that two times would be that a comma joins, the first of them 0.
#[tactic(auto, unfolding(crate::specs::Words::Texts::quanta_hint))]
fn quanta_hint(alloc: Global, word: &[u8]) -> Result<Vec<u8>, AllocError>
    ensures { IfOk result (λ text. text.items ≡ quanta_hint word.now) }
{
    let Some(comma) = find_comma(word) else {
        return Ok(Vec::new(alloc));
    };
    match parse_time(Unit::Millisecond, &word[..comma]) {
        Ok(0) => decimal_hint(alloc, word),
        _ => Ok(Vec::new(alloc)),
    }
}

/// The place of the first comma.
fn find_comma(word: &[u8]) -> Option<usize>
    ensures value { result ≡ position (λ b. b == 44) word.now }
    ensures within { IfSome result (λ place. place < length word.now) }
{
    word.iter().position(|byte| *byte == b',')
}

/// A word with points for commas, where that is a time.
fn decimal_hint(alloc: Global, word: &[u8]) -> Result<Vec<u8>, AllocError>
    ensures { IfOk result (λ text. text.items ≡ time_or_nothing (with_points word.now) (time_in Millisecond (with_points word.now))) }
{
    let decimal = with_points(alloc, word)?;
    match parse_time(Unit::Millisecond, &decimal) {
        Ok(_) => Ok(decimal),
        Err(_) => Ok(Vec::new(alloc)),
    }
}

/// What would be right in place of a switch.
fn switch_hint(alloc: Global, word: &[u8]) -> Result<Vec<u8>, AllocError>
    ensures { IfOk result (λ text. text.items ≡ or_what_times_are (no_time_hint false word.now)) }
{
    let mut hint = Vec::new(alloc);
    push_no_time_hint(alloc, &mut hint, false, word)?;
    if hint.is_empty() {
        hint.extend_from_slice(
            b"a time is up to 9 digits on each side of a point, and ns, us, ms, s or nothing",
        )?;
    }
    Ok(hint)
}
