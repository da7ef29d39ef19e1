ghost use Rattle.std.specs.Prelude.{◌≡◌, ◌++◌, ◌≤◌, length, IfOk, OnOk};
ghost use Rattle.pf_stream.specs.Reading.{longest_script};
ghost use Rattle.pf_commands.specs.Checks.{ChecksScript, check_status, count_text};

use pf_script::check::script_faults::find_faults;
use pf_text::numbers::push_number;
use pf_vocabulary::fault::answer::Answer;
use pf_vocabulary::fault::ending::Ending;
use pf_vocabulary::fault::status::Status;
use std::alloc::{AllocError, Global};

/// Carries nothing out of a script of any version of this file, and answers the messages of the records that the format does not allow,
/// with hints, where they are asked for; and then how many records and messages there are. The status is `BadScript` where there is a
/// message, else `Done`.
///
/// # Errors
///
/// Where memory is refused.
pub fn check(alloc: Global, file: &[u8], script: &[u8], hints: bool) -> Result<Answer, AllocError>
    requires { length script.now ≤ longest_script }
    ensures { IfOk result (ChecksScript file.now hints script.now) }
{
    let found = find_faults(alloc, file, script, hints)?;
    let records = found.records;
    let count = found.lines.count();
    let mut text = found.lines.into_text()?;
    push_counts(&mut text, records, count)?;
    Ok(Answer {
        text,
        ending: Ending::quiet(alloc, status_of(count)),
    })
}

/// Appends the last line.
#[tactic(auto, unfolding(crate::specs::Checks::count_text))]
fn push_counts(text: &mut Vec<u8>, records: u64, faults: u64) -> Result<(), AllocError>
    ensures { OnOk result (text.new.items ≡ text.old.items ++ count_text records faults) }
{
    push_number(text, records)?;
    text.extend_from_slice(b" records, ")?;
    push_number(text, faults)?;
    text.extend_from_slice(b" faults\n")
}

/// The status of a check that found this many faults.
fn status_of(faults: u64) -> Status
    ensures { result ≡ check_status faults }
{
    if faults == 0 {
        Status::Done
    } else {
        Status::BadScript
    }
}
