ghost use Rattle.std.specs.Prelude.{◌≡◌, [], IfOk, IfSome};
ghost use Rattle.pf_vocabulary.specs.declared.fault.status.Status.TheVariants.{BadWords, Done};
ghost use Rattle.pf_convert.specs.Fit.Asked.{AnswersFit, IsForList};
ghost use Rattle.pf_convert.specs.List.Kind.{is_list};
ghost use Rattle.pf_convert.specs.Words.Reading.{IsConversion};

use crate::fit::fit::fit_list;
use crate::list::kind::is_list;
use crate::words::fit_asked::FitAsked;
use crate::words::list_word::ListWord;
use pf_vocabulary::fault::answer::Answer;
use pf_vocabulary::fault::ending::Ending;
use pf_vocabulary::fault::status::Status;
use std::alloc::{AllocError, Global};

/// What the words of a fit are answered with, of a text in a file of this name: whether a list of tasks fits; of any other text that a
/// word is for a list, where one is given that is; and else nothing, as the text is for the fit of a script.
///
/// # Errors
///
/// Where memory is refused.
pub fn fit_answer(
    alloc: Global,
    file: &[u8],
    text: &[u8],
    asked: &FitAsked,
) -> Result<Option<Answer>, AllocError>
    requires { IsConversion asked.now.conversion }
    ensures answer { IfOk result (AnswersFit file.now text.now asked.now (is_list text.now) asked.now.list_word) }
    ensures quiet { IfOk result (λ answer. IfSome answer (λ a. a.ending.status ≡ Done → a.ending.notes.items ≡ [])) }
{
    if is_list(alloc, text)? {
        let answer = fit_list(alloc, file, text, asked.format, &asked.conversion)?;
        return Ok(Some(answer));
    }
    match asked.list_word {
        Some(word) => Ok(Some(for_list(alloc, word)?)),
        None => Ok(None),
    }
}

/// The answer that only tells that a word is for a list.
fn for_list(alloc: Global, word: ListWord) -> Result<Answer, AllocError>
    ensures { IfOk result (IsForList word) }
{
    let notes = Vec::from_slice(alloc, word.line().as_bytes())?;
    Ok(Answer {
        text: Vec::new(alloc),
        ending: Ending {
            status: Status::BadWords,
            notes,
        },
    })
}
