ghost use Rattle.std.specs.Prelude.{◌≡◌, [], Some, IfOk, IfErr};
ghost use Rattle.std.specs.Option.{option_map};
ghost use Rattle.pf_script_run.specs.Carried.{IsOf, Stops};
ghost use Rattle.pf_vocabulary.specs.Fault.Faults.{IsUnwritten};
ghost use Rattle.pf_fit_command.specs.Fit.{FitMade, most_lines, status_of_verdict, tells_all};
ghost use Rattle.pf_script_results.specs.Recount.{recounted};
ghost use Rattle.pf_script.specs.Told.{told};

use crate::texts::fit_of;
use pf_desk::desk::Desk;
use pf_plain_script::origin::Origin;
use pf_script_results::recount::Recount;
use pf_script_results::recounting::recount;
use pf_script_run::carry::carry;
use pf_verdict::findings::find;
use pf_verdict::verdict::Verdict;
use pf_vocabulary::fault::answer::Answer;
use pf_vocabulary::fault::ending::Ending;
use pf_vocabulary::fault::fault::Fault;
use pf_vocabulary::fault::status::Status;
use pf_vocabulary::names::titles::Titles;
use pf_vocabulary::options::fit_format::FitFormat;
use std::alloc::{AllocError, Global};

/// Carries a script of these bytes out, of version 1 or 2, and answers whether it fits, in this format; the file is the name that
/// its records are told with; as text it has hints, where they are asked for. Where it belongs to a plan, `origins` are the records
/// there that its own come from, and the titles what it calls its tasks. The status is `Done` where it fits, and else `FailedOn`.
///
/// # Errors
///
/// `BadRecord` at the first record that is none of the script's, and `NoMemory` where memory is refused.
pub fn fit(
    alloc: Global,
    format: FitFormat,
    file: &[u8],
    hints: bool,
    script: &[u8],
    origins: Option<&[Origin]>,
    titles: &Titles,
) -> Result<Answer, Fault>
    ensures made { IfOk result (FitMade format file.now hints (option_map (λ o. o.now) origins.entry) titles.now script.now) }
    ensures stopped { IfErr result (Stops (told script.now).rest.fault) }
    ensures unwritten { IfErr result IsUnwritten }
    ensures quiet { IfOk result (λ answer. answer.ending.notes.items ≡ []) }
{
    match carry(alloc, script) {
        Ok(desk) => match fit_desk(alloc, format, file, hints, script, origins, titles, &desk) {
            Ok(answer) => Ok(answer),
            Err(AllocError) => Err(Fault::NoMemory),
        },
        Err(fault) => Err(fault),
    }
}

/// The same of the desk on which the script was carried out.
fn fit_desk(
    alloc: Global,
    format: FitFormat,
    file: &[u8],
    hints: bool,
    script: &[u8],
    origins: Option<&[Origin]>,
    titles: &Titles,
    desk: &Desk,
) -> Result<Answer, AllocError>
    requires { IsOf (told script.now) desk.now }
    ensures made { IfOk result (FitMade format file.now hints (option_map (λ o. o.now) origins.entry) titles.now script.now) }
    ensures quiet { IfOk result (λ answer. answer.ending.notes.items ≡ []) }
{
    let recount = recount_of(alloc, format, file, hints, script, origins, titles, desk)?;
    let snapshot = desk.snapshot()?;
    let commands = recount.refusals.commands();
    let findings = find(alloc, &snapshot, commands)?;
    let text = fit_of(
        alloc, format, file, hints, titles, &snapshot, &recount, &findings,
    )?;
    let status = status_of(findings.verdict);
    let ending = Ending::quiet(alloc, status);
    Ok(Answer { text, ending })
}

/// What the script's records came to.
fn recount_of(
    alloc: Global,
    format: FitFormat,
    file: &[u8],
    hints: bool,
    script: &[u8],
    origins: Option<&[Origin]>,
    titles: &Titles,
    desk: &Desk,
) -> Result<Recount, AllocError>
    requires { IsOf (told script.now) desk.now }
    ensures { IfOk result (λ r. Some r ≡
        recounted file.now hints titles.now.names (option_map (λ o. o.now) origins.entry) (most_lines format) (tells_all format) script.now) }
{
    let most = most_lines(format);
    let whole = tells_all(format);
    let found = recount(
        alloc,
        file,
        hints,
        &titles.names,
        script,
        origins,
        desk,
        most,
        whole,
    )?;
    match found {
        Some(recount) => Ok(recount),
        None => unreachable!(),
    }
}

/// Of how many refused records lines are told.
fn most_lines(format: FitFormat) -> u64
    ensures { result ≡ most_lines format }
{
    match format {
        FitFormat::Text => 20,
        FitFormat::Json => 0,
    }
}

/// Whether each refused record is told.
fn tells_all(format: FitFormat) -> bool
    ensures { result ≡ tells_all format }
{
    match format {
        FitFormat::Text => false,
        FitFormat::Json => true,
    }
}

/// The status of a verdict.
fn status_of(verdict: Verdict) -> Status
    ensures { result ≡ status_of_verdict verdict }
{
    match verdict {
        Verdict::Fits => Status::Done,
        Verdict::FitsSoFar => Status::FailedOn,
        Verdict::DoesNotFit => Status::FailedOn,
    }
}
