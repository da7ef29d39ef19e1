ghost use Rattle.std.specs.Prelude.{◌≡◌, ◌==◌, ◌++◌, not, map, filter, IfOk, OnOk};
ghost use Rattle.std.specs.List.{list_any};
ghost use Rattle.std.specs.List.Sorted.{IsNonDecreasing};
ghost use Rattle.pf_scenario.specs.Scenario.{past};
ghost use Rattle.pf_run.specs.Record.{in_force};
ghost use Rattle.pf_tally.specs.Standing.{AreNumbersOf};

use pf_run::denied::Denied;
use pf_scenario::event::Numbered;
use pf_scenario::scenario::Scenario;
use std::alloc::{AllocError, Global};

/// The numbers of the denied events.
fn numbers_of(alloc: Global, denials: &[Denied]) -> Result<Vec<u64>, AllocError>
    ensures { IfOk result (λ v. v.items ≡ map (λ d. d.id) denials.now) }
{
    denials.iter().map(|denied| denied.id).collect(alloc)
}

/// The numbers of the denied events, rising.
///
/// # Errors
///
/// Where memory is refused.
pub fn denied_numbers(alloc: Global, denials: &[Denied]) -> Result<Vec<u64>, AllocError>
    ensures { IfOk result (λ v. AreNumbersOf denials.now v.items) }
{
    let mut numbers = numbers_of(alloc, denials)?;
    numbers.sort_unstable();
    Ok(numbers)
}

/// Whether the number is among these, which rise.
pub fn is_among(numbers: &[u64], id: u64) -> bool
    requires { IsNonDecreasing numbers.now }
    ensures { result ≡ list_any (λ n. n == id) numbers.now }
{
    numbers.binary_search(&id).is_ok()
}

/// Appends those of the events whose numbers are not among the denied ones.
fn keep(standing: &mut Vec<Numbered>, events: &[Numbered], denied: &[u64]) -> Result<(), AllocError>
    requires { IsNonDecreasing denied.now }
    ensures { OnOk result (standing.new.items ≡ standing.old.items ++ filter (λ x. not (list_any (λ n. n == x.id) denied.now)) events.now) }
{
    for event in events {
        if !is_among(denied, event.id) {
            standing.push(*event)?;
        }
    }
    Ok(())
}

/// The events in force after those of the slots below `now`, in run order.
pub(crate) fn standing_events(
    alloc: Global,
    scenario: &Scenario,
    now: u64,
    denials: &[Denied],
) -> Result<Vec<Numbered>, AllocError>
    ensures { IfOk result (λ v. v.items ≡ in_force denials.now (past scenario.now now)) }
{
    let denied = denied_numbers(alloc, denials)?;
    let events = scenario.events_before(now)?;
    let mut standing = Vec::with_capacity(alloc, events.len())?;
    keep(&mut standing, &events, &denied)?;
    Ok(standing)
}
