ghost use Rattle.std.specs.Prelude.{◌≡◌, [], IfOk};
ghost use Rattle.pf_change.specs.Difference.{difference, difference_status, difference_text, told_by};

use pf_desk::snapshot::Snapshot;
use pf_diff::diff::diff_text;
use pf_diff::differing::is_different;
use pf_diff::summary_text::summary_text;
use pf_vocabulary::fault::answer::Answer;
use pf_vocabulary::fault::ending::Ending;
use pf_vocabulary::fault::status::Status;
use pf_vocabulary::options::diff_options::DiffOptions;
use std::alloc::{AllocError, Global};

/// What differs between two desks, as four tables, each after its title, of what differs alone; where the options have a
/// summary, after a table of what each desk comes to. The status is `BadScript`, which is 1, where they have a status and
/// something differs, else `Done`.
///
/// # Errors
///
/// Where memory is refused.
pub fn compare(
    alloc: Global,
    before: &Snapshot,
    after: &Snapshot,
    options: DiffOptions,
) -> Result<Answer, AllocError>
    ensures told { IfOk result (λ answer. told_by answer ≡ difference options before.now after.now) }
    ensures quiet { IfOk result (λ answer. answer.ending.notes.items ≡ []) }
{
    let text = difference_text(alloc, before, after, options.summary)?;
    let status = difference_status(alloc, before, after, options.exit_code)?;
    Ok(Answer {
        text,
        ending: Ending::quiet(alloc, status),
    })
}

/// The tables of what differs, after that of the sums where they are asked for.
fn difference_text(
    alloc: Global,
    before: &Snapshot,
    after: &Snapshot,
    summary: bool,
) -> Result<Vec<u8>, AllocError>
    ensures { IfOk result (λ text. text.items ≡ difference_text summary before.now after.now) }
{
    if !summary {
        return diff_text(alloc, before, after);
    }
    let mut text = summary_text(alloc, before, after)?;
    text.extend_from_slice(&diff_text(alloc, before, after)?)?;
    Ok(text)
}

/// The status after them.
fn difference_status(
    alloc: Global,
    before: &Snapshot,
    after: &Snapshot,
    exit_code: bool,
) -> Result<Status, AllocError>
    ensures { IfOk result (λ status. status ≡ difference_status exit_code before.now after.now) }
{
    if !exit_code {
        return Ok(Status::Done);
    }
    if is_different(alloc, before, after)? {
        return Ok(Status::BadScript);
    }
    Ok(Status::Done)
}
