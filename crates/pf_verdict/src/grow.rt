ghost use Rattle.std.specs.Prelude.{◌≡◌, ◌*◌, ◌/◌, ◌^◌, ◌≤◌, ℕ, List, All, IfOk};
ghost use Rattle.pf_weight.specs.Share.{IsShare};
ghost use Rattle.pf_scenario.specs.Scenario.{Plan};
ghost use Rattle.pf_scenario.specs.declared.settings.TheConstants.{LARGEST_CAP};
ghost use Rattle.pf_run.specs.Computed.{run_of};
ghost use Rattle.pf_run.specs.Record.{Slot};
ghost use Rattle.pf_tally.specs.Figures.{last_slot};
ghost use Rattle.pf_verdict.specs.Grow.{cost_of, grows_of, least_left};
ghost use Rattle.pf_verdict.specs.Stretches.{AreStretches, Cover, IsEven};

use crate::stretch::Stretch;
use pf_desk::snapshot::Snapshot;
use pf_scenario::event::Numbered;
use pf_scenario::settings::Settings;
use pf_tally::admitted::{Admitted, admitted_by_number};
use pf_tally::late::leave_of;
use pf_tally::ledger::make_ledger;
use std::alloc::{AllocError, Global};

/// The slot of the task's leave, or `now` where it did not leave.
fn last_slot(events: &[Numbered], task: Admitted, now: u64) -> u64
    ensures { result ≡ last_slot events.now task now }
{
    let left = match leave_of(events, task.task) {
        Some(numbered) => numbered.event.slot().min(now),
        None => now,
    };
    task.slot.max(left)
}

/// The least that room and cap leave the task in a slot of its stay, which ends below slot `last`, where the others ask for
/// what they do; `most` where it is more.
fn least_left(stretches: &[Stretch], task: Admitted, last: u64, cap: u64, most: u64) -> u64
    requires share { IsShare task.weight }
    requires cap { cap ≤ LARGEST_CAP }
    ensures within { result ≤ most }
    ensures least { (s : Plan) (r : List Slot) (n : ℕ) → s.settings.base ≡ most → s.settings.cap ≡ cap → Cover 0 n stretches.now →
        All (IsEven s r) stretches.now → result ≡ least_left s r task last n }
{
    let units = task.weight.units();
    let mut least = most;
    for stretch in stretches {
        if stretch.from.max(task.slot) < stretch.to.min(last) {
            let left = (stretch.room.min(cap) + units).saturating_sub(stretch.load);
            least = least.min(left);
        }
    }
    least
}

/// The greatest cost that a task may have which is left so many units at least; none where it may have none.
fn cost_of(left: u64, period: u64, base: u64) -> Option<u64>
    requires some { 1 ≤ base }
    requires left { left ≤ base }
    requires small { base ≤ 2 ^ 30 }
    requires short { period ≤ 2 ^ 30 }
    ensures { result ≡ cost_of (left * period / base) }
{
    let cost = left * period / base;
    if cost == 0 { None } else { Some(cost) }
}

/// The greatest cost of each task admitted in the slots below now, by task number, with which the load would stay within the
/// processors in use and the cap in each slot of its stay; none where it is too much with any cost. The stretches must be
/// those of the snapshot.
///
/// # Errors
///
/// Where memory is refused.
pub fn grows(
    alloc: Global,
    snapshot: &Snapshot,
    stretches: &[Stretch],
) -> Result<Vec<Option<u64>>, AllocError>
    requires { AreStretches snapshot.now.state.plan (run_of snapshot.now.state.plan snapshot.now.state.now) snapshot.now.state.now stretches.now }
    ensures { IfOk result (λ v. v.items ≡ grows_of snapshot.now.state.plan (run_of snapshot.now.state.plan snapshot.now.state.now)) }
{
    // That the rows are those of the scenario's run is known from its calls alone.
    let _ = snapshot.now();
    let ledger = make_ledger(
        alloc,
        snapshot.scenario(),
        snapshot.rows(),
        snapshot.denials(),
    )?;
    let settings = ledger.settings;
    let base = settings.base().get();
    let cap = settings.cap();
    let admitted = admitted_by_number(alloc, settings, &ledger.events)?;
    let mut grows = Vec::with_capacity(alloc, admitted.len())?;
    for task in &admitted {
        let period = task.weight.period();
        let last = last_slot(ledger.diary(*task), *task, ledger.now);
        let left = least_left(stretches, *task, last, cap, base);
        grows.push(cost_of(left, period, base))?;
    }
    Ok(grows)
}
