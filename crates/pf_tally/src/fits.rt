ghost use Rattle.std.specs.Prelude.{◌≡◌, ◌≤◌, ◌*◌, length, sum_by, IfOk};
ghost use Rattle.pf_scenario.specs.declared.settings.TheConstants.{LARGEST_CAP, WIDE_HORIZON};
ghost use Rattle.pf_run.specs.Computed.{run_of};
ghost use Rattle.pf_run.specs.Inside.{count_after};
ghost use Rattle.pf_run.specs.RunRows.{AreOfRun};
ghost use Rattle.pf_tally.specs.Load.{overload_of};
ghost use Rattle.pf_tally.specs.Fit.{IsFirstAbove, fit_with};

use crate::asking::{Asking, load_of, take_event};
use crate::fit::Fit;
use crate::ledger::make_ledger;
use pf_place::rows::Rows;
use pf_run::denied::Denied;
use pf_scenario::event::Event;
use pf_scenario::scenario::Scenario;
use std::alloc::{AllocError, Global};

/// How many processors are in use after the event.
pub(crate) fn count_after(count: u64, event: &Event) -> u64
    ensures { result ≡ count_after count event.now }
{
    match *event {
        Event::Limit { count, .. } => count,
        _ => count,
    }
}

/// The fit of the slots below `to`, where `fit` is that of those below `from`, and in each slot from there on these tasks
/// are inside and the processors in use have `room` units.
fn passed(fit: Fit, from: u64, to: u64, asking: &[Asking], room: u64) -> Fit
    requires order { from ≤ to }
    requires short { to ≤ WIDE_HORIZON }
    requires load { sum_by (λ a. a.units) asking.now ≤ LARGEST_CAP }
    requires small { fit.overload ≤ from * LARGEST_CAP }
    ensures { result ≡ fit_with fit from to (sum_by (λ a. a.units) asking.now) room }
{
    if from == to {
        return fit;
    }
    let load = load_of(asking);
    if load <= room {
        return fit;
    }
    Fit {
        first: fit.first.or(Some(from)),
        overload: fit.overload + u128::from(to - from) * u128::from(load - room),
    }
}

/// Whether the loads of the slots of these rows were within the processors in use. The rows and the denials must be those
/// of the scenario's run. It passes over the events in force once.
///
/// # Errors
///
/// Where memory is refused.
pub fn fits(
    alloc: Global,
    scenario: &Scenario,
    rows: &Rows,
    denials: &[Denied],
) -> Result<Fit, AllocError>
    requires { AreOfRun scenario.now (length rows.now) rows.now denials.now }
    ensures first { IfOk result (λ fit. IsFirstAbove scenario.now (run_of scenario.now (length rows.now)) (length rows.now) fit.first) }
    ensures overload { IfOk result (λ fit. fit.overload ≡ overload_of scenario.now (run_of scenario.now (length rows.now)) (length rows.now)) }
{
    let ledger = make_ledger(alloc, scenario, rows, denials)?;
    let settings = ledger.settings;
    let base = settings.base().get();
    let mut asking = Vec::new(alloc);
    let mut count = u64::from(settings.processors());
    let mut fit = Fit {
        first: None,
        overload: 0,
    };
    let mut from = 0;
    for numbered in &ledger.events {
        let slot = numbered.event.slot();
        fit = passed(fit, from, slot, &asking, base * count);
        take_event(alloc, &mut asking, settings, &numbered.event)?;
        count = count_after(count, &numbered.event);
        from = slot;
    }
    Ok(passed(fit, from, ledger.now, &asking, base * count))
}
