ghost use Rattle.std.specs.Prelude.{◌≡◌, ◌==◌, not, filter, fold, length, map, IfOk};
ghost use Rattle.std.specs.List.{list_any, range_with_len};
ghost use Rattle.std.specs.List.Sorted.{IsNonDecreasing};
ghost use Rattle.pf_run.specs.Inside.{count_after};
ghost use Rattle.pf_run.specs.RunRows.{AreOfRun};
ghost use Rattle.pf_courses.specs.Built.{count_by_denials};
ghost use Rattle.pf_courses.specs.Listing.{counts_of};

use pf_place::rows::Rows;
use pf_run::denied::Denied;
use pf_scenario::event::{Event, Numbered};
use pf_scenario::scenario::Scenario;
use pf_tally::standing::{denied_numbers, is_among};
use std::alloc::{AllocError, Global};

/// How many processors are in use after an event, where so many were before it.
fn count_after(count: u64, event: &Event) -> u64
    ensures { result ≡ count_after count event.now }
{
    match *event {
        Event::Limit { count, .. } => count,
        _ => count,
    }
}

/// The number of processors in use after the accepted ones of these events, starting from `count`. The numbers of the denied
/// ones rise.
fn count_behind(count: u64, events: &[Numbered], denied: &[u64]) -> u64
    requires { IsNonDecreasing denied.now }
    ensures { result ≡ fold (λ count x. count_after count x.event) count
        (filter (λ x. not (list_any (λ n. n == x.id) denied.now)) events.now) }
{
    let mut in_use = count;
    for numbered in events {
        if !is_among(denied, numbered.id) {
            in_use = count_after(in_use, &numbered.event);
        }
    }
    in_use
}

/// How many processors there are.
fn planned(scenario: &Scenario) -> u64
    ensures { result ≡ scenario.now.settings.processors }
{
    u64::from(scenario.settings().processors())
}

/// How many processors are in use in each slot below `now`, where these are the denials.
fn counts_in_use(
    alloc: Global,
    scenario: &Scenario,
    now: u64,
    denials: &[Denied],
) -> Result<Vec<u64>, AllocError>
    ensures { IfOk result (λ v. v.items ≡ map (count_by_denials scenario.now denials.now) (range_with_len 0 now)) }
{
    let denied = denied_numbers(alloc, denials)?;
    let mut counts = Vec::new(alloc);
    let mut count = planned(scenario);
    for t in 0..now {
        let events = scenario.slot_events(t)?;
        count = count_behind(count, &events, &denied);
        counts.push(count)?;
    }
    Ok(counts)
}

/// How many processors are in use in each slot of these rows. The rows and the denials must be those of the scenario's run.
///
/// # Errors
///
/// Where memory is refused.
pub fn counts(
    alloc: Global,
    scenario: &Scenario,
    rows: &Rows,
    denials: &[Denied],
) -> Result<Vec<u64>, AllocError>
    requires { AreOfRun scenario.now (length rows.now) rows.now denials.now }
    ensures { IfOk result (λ v. v.items ≡ counts_of scenario.now (length rows.now) rows.now) }
{
    counts_in_use(alloc, scenario, rows.len() as u64, denials)
}
