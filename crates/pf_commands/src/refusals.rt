ghost use Rattle.std.specs.Prelude.{◌≡◌, false, true, [], Some, map, IfOk};
ghost use Rattle.std.specs.Option.{option_map};
ghost use Rattle.pf_script_run.specs.Carried.{IsOf};
ghost use Rattle.pf_script_results.specs.Recount.{recounted};
ghost use Rattle.pf_script.specs.Told.{told};
ghost use Rattle.pf_commands.specs.Refusals.{refusal_of, refusals_for};

use pf_desk::desk::Desk;
use pf_full::refusal::Refusal;
use pf_plain_script::origin::Origin;
use pf_script_results::recount::Recount;
use pf_script_results::recounting::recount;
use pf_script_results::refused_record::RefusedRecord;
use pf_vocabulary::names::names::Names;
use pf_vocabulary::options::format::Format;
use std::alloc::{AllocError, Global};

/// The records of a script of which a command was refused, where the format tells of them; else none are sought. The desk carried
/// the script out. Where it belongs to a plan, `origins` are the records there that its own come from.
///
/// # Errors
///
/// Where memory is refused.
#[tactic(auto, using(crate::proofs::Refusing::listed_refusals))]
pub(crate) fn refusals_for(
    alloc: Global,
    format: Format,
    origins: Option<&[Origin]>,
    script: &[u8],
    desk: &Desk,
) -> Result<Vec<Refusal>, AllocError>
    requires { IsOf (told script.now) desk.now }
    ensures { IfOk result (λ refusals. refusals.items ≡ refusals_for format (option_map (λ o. o.now) origins.entry) script.now) }
{
    if !format.tells_refusals() {
        return Ok(Vec::new(alloc));
    }
    let recount = recount_all(alloc, origins, script, desk)?;
    listed(alloc, &recount.refused)
}

/// What the records of the script came to, with each refused one.
fn recount_all(
    alloc: Global,
    origins: Option<&[Origin]>,
    script: &[u8],
    desk: &Desk,
) -> Result<Recount, AllocError>
    requires { IsOf (told script.now) desk.now }
    ensures { IfOk result (λ r. Some r ≡ recounted [] false [] (option_map (λ o. o.now) origins.entry) 0 true script.now) }
{
    let names = Names::new(alloc);
    let found = recount(alloc, b"", false, &names, script, origins, desk, 0, true)?;
    match found {
        Some(recount) => Ok(recount),
        None => unreachable!(),
    }
}

/// Refused records, as a report tells of them.
fn listed(alloc: Global, records: &[RefusedRecord]) -> Result<Vec<Refusal>, AllocError>
    ensures { IfOk result (λ refusals. refusals.items ≡ map refusal_of records.now) }
{
    let mut refusals = Vec::new(alloc);
    for refused in records {
        refusals.push(refusal_of(*refused))?;
    }
    Ok(refusals)
}

/// A refused record, as a report tells of it.
fn refusal_of(refused: RefusedRecord) -> Refusal
    ensures { result ≡ refusal_of refused }
{
    Refusal {
        record: refused.place.record,
        fault: refused.fault,
    }
}
