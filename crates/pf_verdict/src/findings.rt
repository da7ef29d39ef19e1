ghost use Rattle.std.specs.Prelude.{◌≡◌, ◌≤◌, ◌<◌, ◌*◌, ◌^◌, true, [], All, IfOk};
ghost use Rattle.pf_run.specs.Computed.{run_of};
ghost use Rattle.pf_tally.specs.Misses.{misses_of};
ghost use Rattle.pf_tally.specs.Room.{MissesNone};
ghost use Rattle.pf_laws.specs.Promise.FitLaws.{NoneIsLater};
ghost use Rattle.pf_verdict.specs.Findings.{findings_of};

use crate::carries::carries_cap;
use crate::grow::grows;
use crate::strain::{Strain, strain_of};
use crate::stretches::stretches;
use crate::totals::totals_of;
use crate::verdict::{Grounds, Verdict, unreached, verdict_of};
use pf_desk::snapshot::Snapshot;
use pf_tally::figures::Figures;
use std::alloc::{AllocError, Global};
use std::marker::Model;

/// What a fit rests on, and its verdict.
#[derive(Drop)]
pub struct Findings {
    /// The verdict.
    pub verdict: Verdict,
    /// How many commands were refused.
    pub refused: u64,
    /// How many events are denied.
    pub denied: u64,
    /// How many of the events held have a slot that was not stepped.
    pub unreached: u64,
    /// How tight the slots were.
    pub strain: Strain,
    /// By how many units of 1/h the loads were above the processors in use, in all slots together.
    pub units: u128,
    /// Whether the processors carry the cap, with each limit that is held.
    pub carries: bool,
    /// What is told of each task, by number.
    pub figures: Vec<Figures>,
    /// The greatest cost that each of them may have; none where it may have none.
    pub grows: Vec<Option<u64>>,
}

impl Model for Findings {
    ghost use Rattle.pf_verdict.specs.Findings.{Found};

    ghost Value = { Found };

    ghost view = { λ f. record {
      verdict = f.verdict;
      refused = f.refused;
      denied = f.denied;
      unreached = f.unreached;
      strain = f.strain;
      units = f.units;
      carries = f.carries;
      figures = f.figures.items;
      grows = f.grows.items;
    } };
}

/// What is found of a snapshot of a history in which so many commands were refused. Where the verdict is `Fits`, or no slot
/// asked for more than its processors, no window was missed; where the processors carry the cap none is missed later either;
/// and no task was tardy by more slots than the overload has quanta, nor is a window that was not served yet. The overload has
/// fewer units than 2^100.
///
/// # Errors
///
/// Where memory is refused.
pub fn find(alloc: Global, snapshot: &Snapshot, refused: u64) -> Result<Findings, AllocError>
    ensures found { IfOk result (λ f. f ≡ findings_of snapshot.now refused) }
    ensures fits { IfOk result (λ f. f.verdict ≡ Verdict.Fits → misses_of snapshot.now.state.plan (run_of snapshot.now.state.plan snapshot.now.state.now) ≡ []) }
    ensures within { IfOk result (λ f. f.strain.above ≡ 0 → misses_of snapshot.now.state.plan (run_of snapshot.now.state.plan snapshot.now.state.now) ≡ []) }
    ensures later { IfOk result (λ f. f.carries ≡ true → MissesNone snapshot.now.state.plan) }
    ensures late { IfOk result (λ f. All (λ g. snapshot.now.state.plan.settings.base * g.tardiness ≤ f.units) f.figures) }
    ensures overdue { IfOk result (λ f. NoneIsLater snapshot.now.state.plan (run_of snapshot.now.state.plan snapshot.now.state.now) snapshot.now.state.now f.units) }
    ensures periods { IfOk result (λ f. All (λ g. 1 ≤ g.period) f.figures) }
    ensures few { IfOk result (λ f. f.units < 2 ^ 100) }
{
    let scenario = snapshot.scenario();
    let now = snapshot.now();
    let denied = snapshot.denials().len() as u64;
    let unreached = unreached(scenario, now);
    let carries = carries_cap(scenario);
    let fit = snapshot.fits()?;
    let stretches = stretches(alloc, snapshot)?;
    let strain = strain_of(&stretches, now);
    let grows = grows(alloc, snapshot, &stretches)?;
    let figures = snapshot.figures()?;
    let verdict = verdict_of(Grounds {
        refused,
        denied,
        missed: totals_of(&figures).missed,
        above: strain.above,
        unreached,
    });
    Ok(Findings {
        verdict,
        refused,
        denied,
        unreached,
        strain,
        units: fit.overload,
        carries,
        figures,
        grows,
    })
}
