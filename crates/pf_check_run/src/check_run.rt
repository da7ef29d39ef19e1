ghost use Rattle.std.specs.Prelude.{◌≡◌, ◌≤◌, [], length, IfOk, IfErr};
ghost use Rattle.pf_vocabulary.specs.Fault.Faults.{IsUnwritten};
ghost use Rattle.pf_stream.specs.Reading.{longest_script};
ghost use Rattle.pf_check_run.specs.Answers.{ChecksRun, IsStopped};

use crate::carried::{carried, plan_carried};
use crate::not_run::not_run;
use pf_plain_script::plain::plain_script;
use pf_script::check::script_faults::find_faults;
use pf_vocabulary::fault::answer::Answer;
use pf_vocabulary::fault::fault::Fault;
use pf_vocabulary::names::names::Names;
use std::alloc::Global;

/// What a script of any version, of this file, comes to: the messages of its faults, as a check tells them, with hints, where they
/// are asked for; or, where it has none, it is carried out, and there is a line for each record whose command was refused, each
/// event that was denied and each task that missed windows. Then how many of each there are. The status is `Done` where nothing
/// stands before that, and else `BadScript`.
///
/// # Errors
///
/// `NoMemory` where memory is refused; `TooLong` where a plan has no fault, and the script of version 2 that belongs to it is too long
/// to be carried out.
pub fn check_run(alloc: Global, file: &[u8], script: &[u8], hints: bool) -> Result<Answer, Fault>
    requires { length script.now ≤ longest_script }
    ensures made { IfOk result (ChecksRun file.now hints script.now) }
    ensures stopped { IfErr result (IsStopped script.now) }
    ensures quiet { IfOk result (λ answer. answer.ending.notes.items ≡ []) }
    ensures unwritten { IfErr result IsUnwritten }
{
    let found = find_faults(alloc, file, script, hints)?;
    if !found.is_clean() {
        return Ok(not_run(alloc, found)?);
    }
    match plain_script(alloc, script)? {
        Some(plain) => plan_carried(alloc, file, hints, &plain, found.records),
        None => {
            let names = Names::new(alloc);
            carried(alloc, file, hints, script, None, &names, found.records)
        }
    }
}
