ghost use Rattle.std.specs.Prelude.{◌≡◌};
ghost use Rattle.pf_vocabulary.specs.Options.Formats.{format_named};
ghost use Rattle.pf_session_lines.specs.Words.{fields_after, first_after, has_range, is_early, word_at};

use crate::reversal::Reversal;
use pf_script::fields::Fields;
use pf_vocabulary::options::format::Format;

/// A word that is no record.
#[derive(Clone, Copy)]
pub enum Word {
    /// The name of a format without replies.
    Shows(Format),
    /// `why`.
    Why,
    /// `fit`.
    Fit,
    /// `undo` or `redo`.
    Reverse(Reversal),
    /// `save`.
    Save,
    /// `help`.
    Help,
    /// `quit`.
    Quit,
}

impl Word {
    ghost use Rattle.std.specs.Prelude.{◌≡◌};
    ghost use Rattle.pf_session_lines.specs.Words.{is_early, word_at};

    /// The word that the first field is.
    #[tactic(auto, unfolding(crate::specs::Words::word_at))]
    pub(crate) fn at(fields: &Fields) -> Option<Word>
        ensures { result ≡ word_at fields.now }
    {
        if fields.is_word(0, b"why") {
            return Some(Word::Why);
        }
        if fields.is_word(0, b"fit") {
            return Some(Word::Fit);
        }
        if fields.is_word(0, b"undo") {
            return Some(Word::Reverse(Reversal::Undo));
        }
        if fields.is_word(0, b"redo") {
            return Some(Word::Reverse(Reversal::Redo));
        }
        if fields.is_word(0, b"save") {
            return Some(Word::Save);
        }
        if fields.is_word(0, b"help") {
            return Some(Word::Help);
        }
        if fields.is_word(0, b"quit") {
            return Some(Word::Quit);
        }
        let format = format_of(fields.field(0))?;
        let shown = format;
        if format.has_replies() {
            return None;
        }
        Some(Word::Shows(shown))
    }

    /// Whether it may come before the settings.
    pub(crate) fn is_early(&self) -> bool
        ensures { result ≡ is_early self.now }
    {
        matches!(self, Word::Help | Word::Quit)
    }
}

/// What stands after a word in its form; in brackets what may be left out.
pub(crate) fn fields_after(word: Option<Word>) -> &'static str
    ensures { result.now ≡ fields_after word }
{
    match word {
        Some(Word::Shows(format)) if has_range(&format) => " [F [T]]",
        Some(Word::Why) => " SLOT [TASK]",
        Some(Word::Save) => " FILE",
        _ => "",
    }
}

/// The field that must stand after a word.
pub(crate) fn first_after(word: Option<Word>) -> &'static str
    ensures { result.now ≡ first_after word }
{
    match word {
        Some(Word::Why) => "SLOT",
        Some(Word::Save) => "FILE",
        _ => "",
    }
}

/// The format of this name.
fn format_of(name: &[u8]) -> Option<Format>
    ensures { result ≡ format_named name.now }
{
    match str::from_utf8(name) {
        Ok(name) => Format::named(name),
        Err(_) => None,
    }
}

/// Whether a format may be followed by a range.
pub(crate) fn has_range(format: &Format) -> bool
    ensures { result ≡ has_range format.now }
{
    matches!(
        format,
        Format::Schedule(_)
            | Format::Chart(_)
            | Format::Svg(_, _)
            | Format::Windows(_)
            | Format::Load(_)
            | Format::Quanta(_)
    )
}
