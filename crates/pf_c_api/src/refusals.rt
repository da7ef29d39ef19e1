ghost use Rattle.std.specs.Prelude.{◌≡◌, ◌++◌, IfOk, OnOk};
ghost use Rattle.pf_desk.specs.Views.{lent_reply};
ghost use Rattle.pf_c_api.specs.Refused.{refusal_in, refusals_from, refusals_told};

use pf_desk::history::History;
use pf_desk::reply_view::ReplyView;
use pf_full::refusal::Refusal;
use pf_vocabulary::options::format::Format;
use std::alloc::{AllocError, Global};

/// The refused commands of a history that a format tells of, where it tells of them.
///
/// # Errors
///
/// Where memory is refused.
pub(crate) fn refusals_told(
    alloc: Global,
    history: &History,
    format: Format,
) -> Result<Vec<Refusal>, AllocError>
    ensures { IfOk result (λ refusals. refusals.items ≡ refusals_told format history.now.entries) }
{
    if !format.tells_refusals() {
        return Ok(Vec::new(alloc));
    }
    refused(alloc, history)
}

/// The refused commands of a history, each by its number, counted from 1.
fn refused(alloc: Global, history: &History) -> Result<Vec<Refusal>, AllocError>
    ensures { IfOk result (λ refusals. refusals.items ≡ refusals_from 1 history.now.entries) }
{
    let mut refusals = Vec::new(alloc);
    for k in 0..history.len() {
        let Some(entry) = history.entry(k) else {
            unreachable!();
        };
        push_refusal(&mut refusals, k as u64 + 1, entry.reply)?;
    }
    Ok(refusals)
}

/// Adds the command of this number, where it was refused.
fn push_refusal(
    refusals: &mut Vec<Refusal>,
    number: u64,
    reply: ReplyView<'_>,
) -> Result<(), AllocError>
    ensures { OnOk result (refusals.new.items ≡ refusals.old.items ++ refusal_in number (lent_reply reply.entry)) }
{
    if let ReplyView::Refused(fault) = reply {
        refusals.push(Refusal {
            record: number,
            fault,
        })?;
    }
    Ok(())
}
