ghost use Rattle.std.specs.Prelude.{◌≡◌, ◌*◌, ◌/◌, ◌<◌, ◌≤◌, ◌^◌, IfSome};
ghost use Rattle.std.specs.List.{list_any};
ghost use Rattle.pf_scenario.specs.Edit.{IsEvent};
ghost use Rattle.pf_fit_command.specs.Joins.{is_over_capacity, join_units, joins_asked, joins_units};

use pf_admit::denial::Denial;
use pf_desk::snapshot::Snapshot;
use pf_run::denied::Denied;
use pf_scenario::event::Event;
use pf_scenario::scenario::Scenario;
use pf_scenario::settings::Settings;

/// The units of this weight over the base.
fn units_of(base: u64, cost: u64, period: u64) -> u128
    requires { 1 ≤ period }
    ensures { result ≡ cost * (base / period) }
{
    u128::from(cost) * u128::from(base / period)
}

/// The units that an event asks for, none where it is no join.
fn join_units(settings: Settings, event: &Event) -> u128
    requires { IsEvent settings event.now }
    ensures { result ≡ join_units settings.base event.now }
{
    match *event {
        Event::Join { cost, period, .. } => {
            units_of(u64::from(settings.base().get()), cost, period)
        }
        _ => 0,
    }
}

/// Those of all events held.
fn joins_units(scenario: &Scenario) -> u128
    ensures value { result ≡ joins_units scenario.now }
    ensures few { result < 2 ^ 100 }
{
    let settings = scenario.settings();
    let mut units = 0;
    for numbered in scenario.events() {
        units += join_units(settings, &numbered.event);
    }
    units
}

/// Whether a join was denied as it asks for more than the cap leaves.
fn is_over_capacity(denial: Denial) -> bool
    ensures { result ≡ is_over_capacity denial }
{
    match denial {
        Denial::OverCapacity => true,
        _ => false,
    }
}

/// Whether one of these was.
fn is_one_over(denials: &[Denied]) -> bool
    ensures { result ≡ list_any (λ d. is_over_capacity d.denial) denials.now }
{
    denials.iter().any(|denied| is_over_capacity(denied.denial))
}

/// The units of all joins held, where one of a snapshot's run was denied so.
pub(crate) fn joins_asked(snapshot: &Snapshot) -> Option<u128>
    ensures value { result ≡ joins_asked snapshot.now }
    ensures few { IfSome result (λ j. j < 2 ^ 100) }
{
    if is_one_over(snapshot.denials()) {
        Some(joins_units(snapshot.scenario()))
    } else {
        None
    }
}
