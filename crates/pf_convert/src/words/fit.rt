ghost use Rattle.std.specs.Prelude.{◌≡◌, IfOk};
ghost use Rattle.pf_convert.specs.Words.Fits.{fit_of};
ghost use Rattle.pf_convert.specs.Words.Reading.{IsConversion, texts_of};

use crate::words::fit_asked::FitAsked;
use crate::words::list_word::ListWord;
use crate::words::mistake::ConvertMistake;
use crate::words::read::{ConvertWords, read_conversion};
use pf_vocabulary::options::fit_format::FitFormat;

/// What the words of a fit ask for, whose `--format` names this format, or none. The others are those of a conversion.
///
/// # Errors
///
/// The first of them that is mistaken, the format first.
#[tactic(auto, unfolding(crate::specs::Words::Fits::fit_of))]
pub fn read_fit(
    format: Option<FitFormat>,
    words: &ConvertWords<'_>,
) -> Result<FitAsked, ConvertMistake>
    ensures value { result ≡ fit_of format (texts_of words.now) }
    ensures sound { IfOk result (λ asked. IsConversion asked.conversion) }
{
    let Some(format) = format else {
        return Err(ConvertMistake::FitFormat);
    };
    let conversion = read_conversion(&ConvertWords {
        format: None,
        ..*words
    })?;
    Ok(FitAsked {
        format,
        conversion,
        list_word: ListWord::first(words),
    })
}
