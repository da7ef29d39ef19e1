ghost use Rattle.std.specs.Prelude.{◌≡◌, ◌+◌, ◌≤◌, List, [], length, IfOk, OnOk, OnErr};
ghost use Rattle.pf_order.specs.Counts.{one_more};
ghost use Rattle.pf_order.specs.Counted.{CountsAtMost};
ghost use Rattle.pf_scenario.specs.Scenario.{Plan, events_of};
ghost use Rattle.pf_scenario.specs.Edit.{IsScenario};
ghost use Rattle.pf_run.specs.Record.{Slot};
ghost use Rattle.pf_engine.specs.Fits.{Kept, kept_after, Fits, CanTake, TakesSlot};
ghost use Rattle.pf_engine.specs.Comparisons.{most_comparisons};

use crate::outcome::Outcome;
use crate::room::Room;
use crate::saved_engine::SavedEngine;
use crate::state::State;
use pf_order::meter::Meter;
use pf_scenario::event::Numbered;
use pf_scenario::settings::Settings;
use std::alloc::{AllocError, Global};
use std::marker::Model;

/// What goes on from slot to slot: the tasks inside and what is known of them, so that no past slot is looked at
/// again. It fits a scenario and a run of it where what it keeps is what they give.
pub struct Engine {
    pub(crate) state: State,
}

// A call of its own, so that who drops an engine sees none of its parts.
impl Drop for Engine {
    fn drop(self) {
        let Engine { state: _ } = self;
    }
}

impl Model for Engine {
    ghost use Rattle.pf_engine.specs.Fits.{Kept};

    ghost Value = { Kept };

    ghost view = { λ e. e.state.kept };
}

impl Engine {
    /// An engine before any slot: it fits each scenario with these settings and the empty run.
    ///
    /// # Errors
    ///
    /// Where memory is refused.
    pub fn new(alloc: Global, settings: Settings) -> Result<Self, AllocError>
        ensures value { IfOk result (λ e. e ≡ kept_after settings [] []) }
        ensures fits { IfOk result (λ e. (s : Plan) → s.settings ≡ settings → Fits s [] e) }
    {
        Ok(Engine {
            state: State::new(alloc, settings)?,
        })
    }

    /// The settings of its scenarios.
    pub fn settings(&self) -> Settings
        ensures { result ≡ self.now.settings }
    {
        self.state.settings
    }

    /// The number of slots that it took, which is the slot that comes next.
    pub fn now(&self) -> u64
        ensures { result ≡ self.now.now }
    {
        self.state.slots
    }

    /// An engine that keeps the same.
    ///
    /// # Errors
    ///
    /// Where memory is refused.
    pub fn copy(&self) -> Result<Self, AllocError>
        ensures { IfOk result (λ e. e ≡ self.now) }
    {
        Ok(Engine {
            state: self.state.copy()?,
        })
    }

    /// What it keeps, saved, so that an engine which keeps the same can be made of it.
    ///
    /// # Errors
    ///
    /// Where memory is refused.
    pub fn save(&self) -> Result<SavedEngine, AllocError>
        ensures { IfOk result (λ saved. saved ≡ self.now) }
    {
        SavedEngine::of(&self.state)
    }

    /// Takes the slot `now()` and counts one slot, and for c processors in use, n tasks inside before, and g events at most
    /// (4c + 2 + 4g) times as many comparisons as n + g has binary digits: of each scenario and run that the engine fits, the outcome is the
    /// next slot, and the engine then fits the longer run.
    ///
    /// The events must be all those of that slot in a scenario that the engine fits, in run order, and the slot must be
    /// below the scenario's horizon.
    ///
    /// # Errors
    ///
    /// Where memory is refused: the engine stays as it was, and no slot is counted.
    pub fn slot(&mut self, meter: &mut Meter, events: &[Numbered]) -> Result<Outcome, AllocError>
        requires { CanTake self.old events.now }
        ensures slot { (s : Plan) → (r : List Slot) → IsScenario s → Fits s r self.old
            → events.now ≡ events_of s (length r) → IfOk result (λ o. TakesSlot s r o self.new) }
        ensures err { OnErr result (self.new ≡ self.old) }
        ensures counted { OnOk result (meter.new.slots ≡ one_more meter.old.slots) }
        ensures compared { meter.old.compared ≤ meter.new.compared }
        ensures comparisons { IfOk result
            (λ o. meter.new.compared ≤ meter.old.compared + most_comparisons o.count (length self.old.tasks) (length events.now)) }
        ensures at_most { CountsAtMost 1 meter.old meter.new }
        ensures not_counted { OnErr result (meter.new ≡ meter.old) }
    {
        let room = self.state.prepare(events)?;
        meter.slot();
        Ok(self.state.advance(meter, events, room))
    }
}
