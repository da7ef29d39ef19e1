ghost use Rattle.std.specs.Prelude.{◌≡◌, ◌*◌, nat_le, true};
ghost use Rattle.std.specs.List.{list_all};
ghost use Rattle.pf_scenario.specs.Edit.{IsScenario};
ghost use Rattle.pf_tally.specs.Room.{MissesNone};
ghost use Rattle.pf_verdict.specs.Carries.{carries_cap, carries_with};

use pf_scenario::event::Event;
use pf_scenario::scenario::Scenario;
use pf_scenario::settings::Settings;

/// Whether so many processors carry the cap.
fn is_carried(settings: Settings, count: u64) -> bool
    ensures { result ≡ nat_le settings.cap (settings.base * count) }
{
    u128::from(settings.cap()) <= u128::from(settings.base().get()) * u128::from(count)
}

/// Whether the processors that an event leaves in use carry the cap, where it is a limit.
fn carries_with(settings: Settings, event: &Event) -> bool
    ensures { result ≡ carries_with settings event.now }
{
    match *event {
        Event::Limit { count, .. } => is_carried(settings, count),
        _ => true,
    }
}

/// Whether those that each limit held leaves in use do.
fn limits_carry(scenario: &Scenario, settings: Settings) -> bool
    ensures value { result ≡ list_all (λ x. carries_with settings x.event) scenario.now.events }
    ensures scenario { IsScenario scenario.now }
{
    for numbered in scenario.events() {
        if !carries_with(settings, &numbered.event) {
            return false;
        }
    }
    true
}

/// Whether the processors carry the cap, with each limit that is held. Then no window is missed, in this run or a longer one.
pub fn carries_cap(scenario: &Scenario) -> bool
    ensures value { result ≡ carries_cap scenario.now }
    ensures none { result ≡ true → MissesNone scenario.now }
{
    let settings = scenario.settings();
    let limits = limits_carry(scenario, settings);
    let processors = is_carried(settings, u64::from(settings.processors()));
    processors && limits
}
