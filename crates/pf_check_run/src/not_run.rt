ghost use Rattle.std.specs.Prelude.{◌≡◌, ◌++◌, ◌<◌, ◌-◌, ◌^◌, IfOk, OnOk};
ghost use Rattle.pf_check_run.specs.Answers.{NotRunBy, not_run_line};
ghost use Rattle.pf_vocabulary.specs.Fault.Answers.{IsQuiet};
ghost use Rattle.pf_vocabulary.specs.declared.fault.status.Status.TheVariants.{BadScript};

use pf_script::check::found::Found;
use pf_text::numbers::push_number;
use pf_vocabulary::fault::answer::Answer;
use pf_vocabulary::fault::ending::Ending;
use pf_vocabulary::fault::status::Status;
use std::alloc::{AllocError, Global};

/// Appends the last line of a script with faults.
#[tactic(auto, unfolding(crate::specs::Answers::not_run_line))]
fn push_not_run(text: &mut Vec<u8>, records: u64, lines: u64) -> Result<(), AllocError>
    ensures { OnOk result (text.new.items ≡ text.old.items ++ not_run_line records lines) }
{
    push_number(text, records)?;
    text.extend_from_slice(b" records, ")?;
    push_number(text, lines)?;
    text.extend_from_slice(b" faults; not run\n")
}

/// The answer where there are faults: the script is not carried out.
pub(crate) fn not_run(alloc: Global, found: Found) -> Result<Answer, AllocError>
    requires { found.lines.others < 2 ^ 64 - 1 }
    ensures text { IfOk result (NotRunBy found) }
    ensures ends { IfOk result (λ answer. IsQuiet BadScript answer.ending) }
{
    let Found { lines, records } = found;
    let count = lines.count();
    let mut text = lines.into_text()?;
    push_not_run(&mut text, records, count)?;
    let ending = Ending::quiet(alloc, Status::BadScript);
    Ok(Answer { text, ending })
}
