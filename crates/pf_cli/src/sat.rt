//! How a sitting ends.
ghost use Rattle.std.specs.Prelude.{◌≡◌, ◌-◌, ◌^◌, ◌<◌, Bool, []};
ghost use Rattle.pf_vocabulary.specs.declared.fault.status.Status.TheVariants.{StreamFailed};
ghost use Rattle.pf_cli.specs.Desks.{CameTo};
ghost use Rattle.pf_cli.specs.Noted.{IsTold, status_ended};
ghost use Rattle.pf_cli.specs.Status.{Tells};

use crate::ending::end;
use crate::noted::Noted;
use pf_stream::dialogue::answers::Going;
use pf_stream::dialogue::fault::SitFault;
use pf_stream::sink::Sink;
use pf_vocabulary::fault::ending::Ending;
use pf_vocabulary::fault::fault::Fault;
use pf_vocabulary::fault::status::Status;
use std::alloc::Global;

/// Tells what a sitting came to, and answers the status. Where a write failed there since `failed` were counted, nothing is told.
pub(crate) fn end_sat<F: Sink>(
    alloc: Global,
    outcome: Result<Ending, Fault>,
    failed: u64,
    closed: bool,
    faults: &mut F,
) -> u8
    requires { failed < 2 ^ 64 - 1 }
    ensures status { result ≡ status_ended closed StreamFailed outcome }
    ensures told { F.failed faults.old ≡ failed → IsTold closed outcome [] (Tells (F.contents faults.old) (F.contents faults.new) (F.failed faults.old) (F.failed faults.new)) }
{
    if faults.failures() != failed {
        return status_of(&outcome);
    }
    let notes = Ok(Vec::new(alloc));
    end(
        Noted { outcome, notes },
        closed,
        Status::StreamFailed,
        faults,
    )
}

/// What a sitting came to, where a line was bad or none was.
pub(crate) fn outcome_of(
    alloc: Global,
    going: Result<Going, SitFault>,
    has_bad: bool,
) -> Result<Ending, Fault>
    ensures { CameTo going has_bad result }
{
    match going {
        Ok(_) if has_bad => Ok(Ending::quiet(alloc, Status::BadScript)),
        Ok(_) => Ok(Ending::quiet(alloc, Status::Done)),
        Err(SitFault::Deaf) => Err(Fault::Read),
        Err(SitFault::Mute) => Err(Fault::Write),
        Err(SitFault::NoMemory) => Err(Fault::NoMemory),
        Err(SitFault::Unkept) => Err(Fault::Write),
    }
}

/// The status of that, whether anybody reads the output any more or not.
fn status_of(outcome: &Result<Ending, Fault>) -> u8
    ensures { (closed : Bool) → result ≡ status_ended closed StreamFailed outcome.now }
{
    match outcome {
        Ok(ending) => ending.status.number(),
        Err(fault) => fault.status().number(),
    }
}
