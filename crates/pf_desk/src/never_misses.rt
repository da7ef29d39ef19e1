ghost use Rattle.std.specs.Prelude.{◌≡◌, ◌↔◌, IsTrue};
ghost use Rattle.pf_scenario.specs.Edit.{IsScenario};
ghost use Rattle.pf_tally.specs.Room.{CarriesCap};
ghost use Rattle.pf_desk.specs.Desk.{IsDesk};
ghost use Rattle.pf_desk.specs.Room.{leaves_needed};

use crate::desk::Desk;
use pf_scenario::event::Event;
use pf_scenario::scenario::Scenario;

impl Desk {
    /// Whether no window can ever be missed, whatever joins, leaves, is delayed and runs early: the processors carry the
    /// cap on the load, and with each limit that is held those that it leaves in use do. So it stays until an edit brings a
    /// limit that leaves fewer. It looks at each event once and takes no memory.
    pub fn never_misses(&self) -> bool
        ensures value { IsTrue result ↔ CarriesCap self.now.state.plan }
        ensures desk { IsDesk self.now }
    {
        let scenario = self.scenario();
        has_room(scenario)
    }
}

/// Whether the processors carry the cap, with each limit that the scenario holds.
fn has_room(scenario: &Scenario) -> bool
    ensures room { IsTrue result ↔ CarriesCap scenario.now }
    ensures scenario { IsScenario scenario.now }
{
    let settings = scenario.settings();
    let needed = settings.cap().div_ceil(settings.base().get());
    if u64::from(settings.processors()) < needed {
        return false;
    }
    for numbered in scenario.events() {
        if !leaves(needed, &numbered.event) {
            return false;
        }
    }
    true
}

/// Whether an event that is a limit leaves as many processors in use as are needed.
fn leaves(needed: u64, event: &Event) -> bool
    ensures { result ≡ leaves_needed needed event.now }
{
    match *event {
        Event::Limit { count, .. } => needed <= count,
        _ => true,
    }
}
