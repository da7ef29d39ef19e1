ghost use Rattle.std.specs.Prelude.{IfErr};
ghost use Rattle.pf_vocabulary.specs.Fault.Faults.{IsUnwritten};
ghost use Rattle.pf_script.specs.Told.{told};
ghost use Rattle.pf_replies.specs.Carried.{EndsBy, ShowsEnd};
ghost use Rattle.pf_replies.specs.Course.{outcome_told};

use crate::script_replies::ScriptReplies;
use pf_desk::desk::Desk;
use pf_desk::snapshot::Snapshot;
use pf_vocabulary::fault::fault::Fault;
use pf_vocabulary::options::format::Format;
use std::alloc::Global;

/// Carries out a script of these bytes, and answers the desk at its end. Nothing is written.
///
/// # Errors
///
/// `BadRecord` at the first record that is none of the script's, and `NoMemory` where memory is refused.
pub fn desk_at_end(alloc: Global, script: &[u8]) -> Result<Desk, Fault>
    ensures end { EndsBy (outcome_told (told script.now)) result }
    ensures unwritten { IfErr result IsUnwritten }
{
    // A format without replies.
    let replies = ScriptReplies::open(alloc, script, Format::Report)?;
    replies.finish()
}

/// Carries out a script of these bytes, and answers what the desk shows at its end. Nothing is written.
///
/// # Errors
///
/// `BadRecord` at the first record that is none of the script's, and `NoMemory` where memory is refused.
pub fn seen_at_end(alloc: Global, script: &[u8]) -> Result<Snapshot, Fault>
    ensures end { ShowsEnd (outcome_told (told script.now)) result }
    ensures unwritten { IfErr result IsUnwritten }
{
    match desk_at_end(alloc, script) {
        Ok(desk) => Ok(desk.snapshot()?),
        Err(fault) => Err(fault),
    }
}
