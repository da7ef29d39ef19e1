ghost use Rattle.std.specs.Prelude.{◌≡◌, IfOk};
ghost use Rattle.pf_desk.specs.Views.{lent_reply};
ghost use Rattle.pf_commands.specs.Ended.{has_denials, has_misses, is_failing, run_status};
ghost use Rattle.pf_replies.specs.Course.{course_at};
ghost use Rattle.pf_report.specs.Replies.{is_refusal};

use pf_desk::desk::Desk;
use pf_desk::reply_view::ReplyView;
use pf_vocabulary::fault::status::Status;
use pf_vocabulary::options::fail_on::FailOn;
use std::alloc::AllocError;

/// The status of a run that ended with this desk. The missed windows are in memory only where they are asked for, and nothing else
/// is met.
///
/// # Errors
///
/// Where memory is refused.
pub(crate) fn status_of(desk: &Desk, fail_on: FailOn) -> Result<Status, AllocError>
    ensures { IfOk result (λ status. status ≡ run_status (is_failing fail_on (course_at desk.now))) }
{
    if is_failing(desk, fail_on)? {
        Ok(Status::FailedOn)
    } else {
        Ok(Status::Done)
    }
}

/// Whether the run fails.
fn is_failing(desk: &Desk, fail_on: FailOn) -> Result<bool, AllocError>
    ensures { IfOk result (λ failing. failing ≡ is_failing fail_on (course_at desk.now)) }
{
    if fail_on.refused && has_refusal(desk) {
        return Ok(true);
    }
    if fail_on.denied && has_denials(desk) {
        return Ok(true);
    }
    if !fail_on.missed {
        return Ok(false);
    }
    has_misses(desk)
}

/// Whether a command was refused.
fn has_refusal(desk: &Desk) -> bool
    ensures { result ≡ (course_at desk.now).refused }
{
    let history = desk.history();
    for k in 0..history.len() {
        let Some(entry) = history.entry(k) else {
            unreachable!();
        };
        if is_refusal(entry.reply) {
            return true;
        }
    }
    false
}

/// Whether the reply refuses its command.
fn is_refusal(reply: ReplyView<'_>) -> bool
    ensures { result ≡ is_refusal (lent_reply reply.entry) }
{
    matches!(reply, ReplyView::Refused(_))
}

/// Whether an event is denied.
fn has_denials(desk: &Desk) -> bool
    ensures { result ≡ has_denials (course_at desk.now) }
{
    !desk.denials().is_empty()
}

/// Whether a window is missed.
fn has_misses(desk: &Desk) -> Result<bool, AllocError>
    ensures { IfOk result (λ missed. missed ≡ has_misses (course_at desk.now)) }
{
    let misses = desk.misses()?;
    Ok(!misses.is_empty())
}
