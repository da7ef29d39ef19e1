ghost use Rattle.std.specs.Prelude.{◌≡◌, ◌≤◌, length};
ghost use Rattle.std.specs.Option.{option_map};
ghost use Rattle.pf_commands.specs.Meaning.{script_meaning};
ghost use Rattle.pf_session_views.specs.Answered.{Answers, Fits, Runs};
ghost use Rattle.pf_stream.specs.Reading.{longest_script};

use pf_commands::run::run;
use pf_fit_command::fit::fit;
use pf_plain_script::origin::Origin;
use pf_session_lines::wanted::Wanted;
use pf_stream::sink::CountedWriter;
use pf_vocabulary::fault::answer::Answer;
use pf_vocabulary::fault::fault::Fault;
use pf_vocabulary::names::titles::Titles;
use pf_vocabulary::options::fail_on::FailOn;
use pf_vocabulary::options::fit_format::FitFormat;
use pf_vocabulary::options::format::Format;
use pf_why_answer::why::why;
use std::alloc::Global;

/// What the program answers to a script of version 1 or 2, of what is wanted. Where it belongs to a plan, `origins` are the
/// records there that its own come from, and the titles those that it gives.
///
/// # Errors
///
/// `BadRecord` at the first record that is none of the script's, `BadRange` where the range of a format can't be shown of the slots
/// stepped, and `NoMemory` where memory is refused.
pub(crate) fn answer(
    alloc: Global,
    script: &[u8],
    titles: &Titles,
    origins: Option<&[Origin]>,
    wanted: &Wanted,
) -> Result<Answer, Fault>
    requires { length script.now ≤ longest_script }
    ensures { Answers wanted.now titles.now (option_map (λ o. o.now) origins.entry) script.now result }
{
    match wanted {
        Wanted::Report(format) => report(alloc, script, titles, origins, *format),
        Wanted::Why(question) => why(alloc, script, &titles.names, question),
        Wanted::Fit => fit(alloc, FitFormat::Text, b"-", true, script, origins, titles),
    }
}

/// What a run gives in a format.
#[tactic(auto, using(crate::proofs::Answered::ran, crate::proofs::Answered::stopped, crate::proofs::Answered::refused))]
fn report(
    alloc: Global,
    script: &[u8],
    titles: &Titles,
    origins: Option<&[Origin]>,
    format: Format,
) -> Result<Answer, Fault>
    requires { length script.now ≤ longest_script }
    ensures { Runs (script_meaning format titles.now (option_map (λ o. o.now) origins.entry) script.now) result }
{
    let mut text = CountedWriter::new(Vec::new(alloc));
    let fail_on = FailOn::nothing();
    match run(alloc, script, &mut text, format, titles, origins, fail_on) {
        Ok(ran) => Ok(Answer {
            text: text.into_inner(),
            ending: ran.ending,
        }),
        // A vector takes no more only where memory is refused.
        Err(Fault::Write) => Err(Fault::NoMemory),
        Err(fault) => Err(fault),
    }
}
