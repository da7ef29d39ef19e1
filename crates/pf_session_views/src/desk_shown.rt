ghost use Rattle.std.specs.Prelude.{◌≡◌, [], None, IfOk};
ghost use Rattle.pf_commands.specs.Meaning.{report_meaning};
ghost use Rattle.pf_replies.specs.Course.{course_at};
ghost use Rattle.pf_formats.specs.Report.{report_text};
ghost use Rattle.pf_session_views.specs.Held.{DeskShows, ShowsMeaning, WhyShows, is_of_desk};
ghost use Rattle.pf_vocabulary.specs.Options.Formats.{range_fault};

use crate::show::{script_shown, shown_answer};
use crate::words::range_words;
use pf_desk::desk::Desk;
use pf_desk::snapshot::Snapshot;
use pf_formats::report::report_pieces;
use pf_session_lines::showing::Showing;
use pf_session_lines::wanted::Wanted;
use pf_text::pieces::gathered;
use pf_vocabulary::names::titles::Titles;
use pf_vocabulary::options::format::Format;
use pf_vocabulary::questions::question::Question;
use pf_why_answer::why::desk_answer;
use std::alloc::{AllocError, Global};

/// What a desk with these titles shows of what is wanted, which carried out this script: its own report, or why a slot went as it
/// did. Where records before the end are told of, by whether the script fits and in `full` and `html`, the script is carried out
/// again for it.
///
/// # Errors
///
/// Where memory is refused.
pub(crate) fn desk_shown(
    alloc: Global,
    desk: &Desk,
    titles: &Titles,
    script: &[u8],
    wanted: &Wanted,
) -> Result<Showing, AllocError>
    ensures { IfOk result (DeskShows (course_at desk.now) titles.now wanted.now script.now) }
{
    match wanted {
        Wanted::Report(format) if is_of_desk(format) => report_shown(alloc, desk, titles, *format),
        Wanted::Why(question) => why_shown(alloc, desk, titles, question),
        _ => script_shown(alloc, script, desk.now(), wanted),
    }
}

/// Whether a format tells nothing of the records before the end.
fn is_of_desk(format: &Format) -> bool
    ensures { result ≡ is_of_desk format.now }
{
    !format.has_replies() && !format.tells_refusals()
}

/// The report of a desk in a format, or that its range can't be shown.
#[tactic(auto, using(crate::proofs::Held::report_shown, crate::proofs::Held::range_shown))]
fn report_shown(
    alloc: Global,
    desk: &Desk,
    titles: &Titles,
    format: Format,
) -> Result<Showing, AllocError>
    ensures { IfOk result (ShowsMeaning format desk.now.state.now (report_meaning format titles.now [] (course_at desk.now))) }
{
    let now = desk.now();
    match format.range_fault(now) {
        Some(fault) => Ok(Showing::Bad(range_words(alloc, format, now, fault)?.into_bytes())),
        None => {
            let seen = desk.snapshot()?;
            let text = report_text(alloc, &seen, desk.distance(), titles, format)?;
            Ok(Showing::Text(text))
        }
    }
}

/// The report of what is seen of a desk whose checkpoints lie so far apart.
fn report_text(
    alloc: Global,
    seen: &Snapshot,
    every: u64,
    titles: &Titles,
    format: Format,
) -> Result<Vec<u8>, AllocError>
    requires { range_fault format seen.now.state.now ≡ None }
    ensures { IfOk result (λ text. text.items ≡ report_text format every seen.now titles.now []) }
{
    let pieces = report_pieces(alloc, seen, every, format, titles, Vec::new(alloc))?;
    gathered(alloc, pieces)
}

/// Why a slot went as it did, by a desk.
fn why_shown(
    alloc: Global,
    desk: &Desk,
    titles: &Titles,
    question: &Question,
) -> Result<Showing, AllocError>
    ensures { IfOk result (WhyShows (course_at desk.now) titles.now question.now) }
{
    let answer = desk_answer(alloc, desk, &titles.names, question)?;
    Ok(shown_answer(answer))
}
