ghost use Rattle.std.specs.Prelude.{IfOk};
ghost use Rattle.std.specs.Option.{option_map};
ghost use Rattle.pf_plain_script.specs.Plain.{IsPlain, Plain};
ghost use Rattle.pf_session_views.specs.Shown.{IsShown, Shows, ShowsAnswer, ShowsShort, ShowsPlan};

use crate::answer::answer;
use crate::words::words;
use pf_plain_script::origin::Origin;
use pf_plain_script::plain::{PlainScript, plain_script};
use pf_script::plan::fault::BadRecord;
use pf_session_lines::showing::Showing;
use pf_session_lines::wanted::Wanted;
use pf_stream::reading::LONGEST_SCRIPT;
use pf_vocabulary::fault::answer::Answer;
use pf_vocabulary::fault::fault::Fault;
use pf_vocabulary::fault::status::Status;
use pf_vocabulary::names::titles::Titles;
use std::alloc::{AllocError, Global};

/// What a script of these bytes, by which so many slots were stepped, shows of what is wanted: the text that `pfair run`, `pfair why`
/// or `pfair fit` gives of it, with `-` for the name of its file. A plan is read by the script of version 2 that belongs to it, and
/// its titles and records are those of a plan. Where the program gives no text, the words of why: `settings are expected`, `F 2 is
/// above T 1` and such, `slot T was not stepped: ..`, and of another bad record and of a script that is too long the line of that
/// fault.
///
/// # Errors
///
/// Where memory is refused.
#[tactic(auto, using(crate::proofs::Shown::other_shows))]
pub(crate) fn script_shown(
    alloc: Global,
    script: &[u8],
    now: u64,
    wanted: &Wanted,
) -> Result<Showing, AllocError>
    ensures { IfOk result (Shows now wanted.now script.now) }
{
    match plain_script(alloc, script)? {
        Some(plain) => show_plan(alloc, &plain, now, wanted),
        None => show_short(alloc, script, now, None, &Titles::none(alloc), None, wanted),
    }
}

/// The same of a plan, to which this one belongs.
#[tactic(auto, using(crate::proofs::Shown::plan_shown))]
fn show_plan(
    alloc: Global,
    plain: &PlainScript,
    now: u64,
    wanted: &Wanted,
) -> Result<Showing, AllocError>
    ensures { (p : Plain) → IsPlain plain.now p → IfOk result (ShowsPlan now p wanted.now) }
{
    let origins = plain.origins.as_slice();
    show_short(
        alloc,
        &plain.text,
        now,
        plain.bad,
        &plain.titles,
        Some(origins),
        wanted,
    )
}

/// The same of a script of version 1 or 2, where it is short enough. Where it belongs to a plan, `bad` is the first bad
/// record there, and `origins` are the records that its own come from.
#[tactic(auto, using(crate::proofs::Shown::short_enough, crate::proofs::Shown::too_long))]
fn show_short(
    alloc: Global,
    script: &[u8],
    now: u64,
    bad: Option<BadRecord>,
    titles: &Titles,
    origins: Option<&[Origin]>,
    wanted: &Wanted,
) -> Result<Showing, AllocError>
    ensures { IfOk result (ShowsShort now bad titles.now (option_map (λ o. o.now) origins.entry) wanted.now script.now) }
{
    if script.len() > LONGEST_SCRIPT {
        return showing(alloc, wanted, now, bad, Err(Fault::TooLong));
    }
    let made = answer(alloc, script, titles, origins, wanted);
    showing(alloc, wanted, now, bad, made)
}

/// What an answer of the program shows, or the words of its fault.
fn showing(
    alloc: Global,
    wanted: &Wanted,
    now: u64,
    bad: Option<BadRecord>,
    made: Result<Answer, Fault>,
) -> Result<Showing, AllocError>
    ensures { IfOk result (IsShown wanted.now now bad made) }
{
    match made {
        Ok(answer) => Ok(shown_answer(answer)),
        Err(fault) => Ok(Showing::Bad(words(alloc, wanted, now, bad, fault)?)),
    }
}

/// The text of an answer, or what it tells where the words are mistaken.
#[tactic(auto, using(crate::proofs::Shown::text_shown))]
pub(crate) fn shown_answer(answer: Answer) -> Showing
    ensures { ShowsAnswer answer.ending.status answer result }
{
    let Answer { text, ending } = answer;
    match ending.status {
        Status::BadWords => {
            let mut words = ending.notes;
            words.pop();
            Showing::Bad(words)
        }
        _ => Showing::Text(text),
    }
}
