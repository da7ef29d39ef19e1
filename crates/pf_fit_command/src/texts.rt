ghost use Rattle.std.specs.Prelude.{◌≡◌, ◌<◌, ◌≤◌, ◌^◌, ℕ, Bool, List, All, IfOk};
ghost use Rattle.pf_verdict.specs.Findings.{findings_of};
ghost use Rattle.pf_fit_command.specs.Fit.{arrays_of, carried_of, fit_of};
ghost use Rattle.pf_vocabulary.specs.declared.options.fit_format.FitFormat.TheVariants.{Json, Text};

use crate::items::{denied_array, missed_array, refused_array};
use crate::joins::joins_asked;
use pf_desk::snapshot::Snapshot;
use pf_fit_text::arrays::Arrays;
use pf_fit_text::carried::Carried;
use pf_fit_text::json::fit_json;
use pf_fit_text::text::fit_text;
use pf_run_notes::behind_run::lists;
use pf_script_results::recount::Recount;
use pf_verdict::findings::Findings;
use pf_vocabulary::names::titles::Titles;
use pf_vocabulary::options::fit_format::FitFormat;
use std::alloc::{AllocError, Global};

/// The numbers of a snapshot.
fn carried_of(snapshot: &Snapshot) -> Carried
    ensures value { result ≡ carried_of snapshot.now }
    ensures base { 1 ≤ result.base }
{
    let settings = snapshot.settings();
    Carried {
        base: u64::from(settings.base().get()),
        cap: settings.cap(),
        processors: settings.processors(),
        now: snapshot.now(),
        commands: snapshot.version(),
        events: snapshot.events().count() as u64,
    }
}

/// The lists of a snapshot, whole.
fn arrays_of(alloc: Global, snapshot: &Snapshot, recount: &Recount) -> Result<Arrays, AllocError>
    ensures { IfOk result (λ arrays. arrays ≡ arrays_of snapshot.now recount.now) }
{
    Ok(Arrays {
        denied: denied_array(alloc, &recount.made, snapshot)?,
        missed: missed_array(alloc, &recount.made, snapshot)?,
        refused: refused_array(alloc, &recount.refused)?,
    })
}

/// The answer as text.
fn text_of(
    alloc: Global,
    file: &[u8],
    hints: bool,
    titles: &Titles,
    snapshot: &Snapshot,
    recount: &Recount,
    findings: &Findings,
) -> Result<Vec<u8>, AllocError>
    requires found { findings.now ≡ findings_of snapshot.now recount.now.refusals.commands }
    requires periods { All (λ f. 1 ≤ f.period) findings.now.figures }
    requires few { findings.now.units < 2 ^ 100 }
    ensures { IfOk result (λ text. text.items ≡ fit_of Text file.now hints titles.now snapshot.now recount.now) }
{
    let listed = lists(
        alloc,
        file,
        hints,
        &titles.names,
        &recount.made,
        &recount.refusals,
        snapshot,
    )?;
    let carried = carried_of(snapshot);
    let joins = joins_asked(snapshot);
    fit_text(alloc, carried, joins, titles, findings, &listed)
}

/// The answer as JSON.
fn json_of(
    alloc: Global,
    titles: &Titles,
    snapshot: &Snapshot,
    recount: &Recount,
    findings: &Findings,
) -> Result<Vec<u8>, AllocError>
    requires found { findings.now ≡ findings_of snapshot.now recount.now.refusals.commands }
    ensures { (file : List ℕ) (hints : Bool) → IfOk result (λ text. text.items ≡ fit_of Json file hints titles.now snapshot.now recount.now) }
{
    let arrays = arrays_of(alloc, snapshot, recount)?;
    fit_json(alloc, carried_of(snapshot), titles, findings, &arrays)
}

/// The answer in a format.
pub(crate) fn fit_of(
    alloc: Global,
    format: FitFormat,
    file: &[u8],
    hints: bool,
    titles: &Titles,
    snapshot: &Snapshot,
    recount: &Recount,
    findings: &Findings,
) -> Result<Vec<u8>, AllocError>
    requires found { findings.now ≡ findings_of snapshot.now recount.now.refusals.commands }
    requires periods { All (λ f. 1 ≤ f.period) findings.now.figures }
    requires few { findings.now.units < 2 ^ 100 }
    ensures { IfOk result (λ text. text.items ≡ fit_of format file.now hints titles.now snapshot.now recount.now) }
{
    match format {
        FitFormat::Text => text_of(alloc, file, hints, titles, snapshot, recount, findings),
        FitFormat::Json => json_of(alloc, titles, snapshot, recount, findings),
    }
}
