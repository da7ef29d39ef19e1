ghost use Rattle.std.specs.Prelude.{◌≡◌, ◌⊎◌, ◌<◌, ◌≤◌, ◌+◌, ◌-◌, ◌↔◌, length, take, IfOk, OnOk, OnErr, Err};
ghost use Rattle.pf_order.specs.Counts.{one_more};
ghost use Rattle.pf_order.specs.Counted.{CountsAtMost};
ghost use Rattle.pf_scenario.specs.Scenario.{Plan};
ghost use Rattle.pf_scenario.specs.Edit.{IsScenario};
ghost use Rattle.pf_scenario.specs.Limits.{largest_distance};
ghost use Rattle.pf_timeline.specs.Checkpoints.{most_near_slots, near_distance, near_slots};
ghost use Rattle.pf_timeline.specs.Comparisons.{most_comparisons_at};
ghost use Rattle.pf_timeline.specs.Timeline.{StandsFor, AgreesBelow};
ghost use Rattle.pf_timeline.specs.declared.fault.StepFault.TheVariants.{AtHorizon};
ghost use Rattle.pf_timeline.specs.declared.fault.NewFault.TheVariants.{BadSettings};

use crate::checkpoints::Checkpoints;
use crate::fault::{NewFault, StepFault};
use crate::near_checkpoints::{NearCheckpoints, last_of};
use pf_collections::list::shared_vec::SharedVec;
use pf_engine::denied::Denied;
use pf_engine::engine::Engine;
use pf_order::meter::Meter;
use pf_place::rows::Rows;
use pf_scenario::limits::LARGEST_DISTANCE;
use pf_scenario::scenario::Scenario;
use pf_scenario::settings::Settings;
use std::alloc::{AllocError, Global};
use std::marker::Model;
use std::snapshot::Snapshot;

/// The kept run of a scenario: the rows and the denials of its first slots.
pub struct Timeline {
    rows: Rows,
    denials: SharedVec<Denied>,
    engine: Engine,

    checkpoints: Checkpoints,
    near: NearCheckpoints,

    /// The scenario whose run this is, which clauses alone see.
    scenario: Snapshot<Scenario>,
}

// A call of its own, so that who drops a timeline sees none of its parts.
impl Drop for Timeline {
    fn drop(self) {
        let Timeline {
            rows: _,
            denials: _,
            engine: _,
            checkpoints: _,
            near: _,
            scenario: _,
        } = self;
    }
}

impl Model for Timeline {
    ghost use Rattle.pf_timeline.specs.Timeline.{KeptRun};
    ghost use Rattle.pf_timeline.specs.Keeping.{kept_run, KeepsTimeline};

    ghost Value = { KeptRun };

    ghost view = { λ t. kept_run t.scenario.value t.checkpoints.every t.near.start t.rows t.denials.items t.engine };

    ghost invariant = { λ t. KeepsTimeline t.scenario.value t.engine.now t.rows t.denials.items t.engine t.checkpoints t.near };
}

impl Timeline {
    /// A timeline of no slots, which keeps a checkpoint each `every` slots, 1 to `LARGEST_DISTANCE`.
    ///
    /// # Errors
    ///
    /// `BadSettings` for any other `every`; `NoMemory` where memory is refused.
    pub fn new(alloc: Global, settings: Settings, every: u64) -> Result<Self, NewFault>
        ensures bad_settings { (result ≡ Err BadSettings) ↔ ((every ≡ 0) ⊎ (largest_distance < every)) }
        ensures stands { IfOk result (λ t. (s : Plan) → s.settings ≡ settings → IsScenario s → StandsFor s 0 t) }
        ensures every { IfOk result (λ t. t.every ≡ every) }
        ensures near { IfOk result (λ t. t.near ≡ 0) }
    {
        if every == 0 || every > LARGEST_DISTANCE {
            return Err(NewFault::BadSettings);
        }
        let start = Timeline::at_start(alloc, settings, every)?;
        Ok(start)
    }

    /// A timeline of no slots in these settings.
    fn at_start(alloc: Global, settings: Settings, every: u64) -> Result<Self, AllocError>
        requires { 1 ≤ every }
        ensures stands { IfOk result (λ t. (s : Plan) → s.settings ≡ settings → IsScenario s → StandsFor s 0 t) }
        ensures every { IfOk result (λ t. t.every ≡ every) }
        ensures near { IfOk result (λ t. t.near ≡ 0) }
    {
        let engine = Engine::new(alloc, settings)?;
        let opening = Scenario::new(alloc, settings);
        Ok(Timeline {
            rows: Rows::new(alloc),
            denials: SharedVec::new(alloc),
            engine,
            checkpoints: Checkpoints::new(alloc, every),
            near: NearCheckpoints::new(alloc, 0),
            scenario: Snapshot::of(&opening),
        })
    }

    /// Takes the next slot of the scenario that the timeline stands for. Counts one slot, and none with an error; for c
    /// processors in use, n tasks inside before, and g events of that slot at most (4c + 2 + 4g) times as many comparisons
    /// as n + g has binary digits.
    ///
    /// # Errors
    ///
    /// `AtHorizon` where there is no next slot; `NoMemory` where memory is refused. The timeline is as before.
    pub fn step(&mut self, meter: &mut Meter, scenario: &Scenario) -> Result<(), StepFault>
        requires { StandsFor scenario.now self.old.now self.old }
        ensures ok { OnOk result (StandsFor scenario.now (self.old.now + 1) self.new) }
        ensures every { self.new.every ≡ self.old.every }
        ensures near { OnOk result ((self.new.near ≡ self.old.near) ⊎ (self.new.near + near_slots ≤ self.old.now)) }
        ensures held { OnOk result (self.new.now ≤ self.new.near + most_near_slots) }
        ensures horizon { (result ≡ Err AtHorizon) ↔ (self.old.now ≡ scenario.now.settings.horizon) }
        ensures err { OnErr result (self.new ≡ self.old) }
        ensures counted { OnOk result (meter.new.slots ≡ one_more meter.old.slots) }
        ensures uncounted { OnErr result (meter.new ≡ meter.old) }
        ensures at_most { CountsAtMost 1 meter.old meter.new }
        ensures compared { meter.old.compared ≤ meter.new.compared }
        ensures comparisons { meter.new.compared ≤ meter.old.compared + most_comparisons_at scenario.now self.old.now }
    {
        if self.now() == scenario.settings().horizon() {
            return Err(StepFault::AtHorizon);
        }
        self.advance(meter, scenario)?;
        Ok(())
    }

    /// Takes the next slot, which is below the horizon. Counts as `step` does.
    ///
    /// # Errors
    ///
    /// Where memory is refused: the timeline is as before.
    pub fn advance(&mut self, meter: &mut Meter, scenario: &Scenario) -> Result<(), AllocError>
        requires stands { StandsFor scenario.now self.old.now self.old }
        requires below { self.old.now < scenario.now.settings.horizon }
        ensures ok { OnOk result (StandsFor scenario.now (self.old.now + 1) self.new) }
        ensures every { self.new.every ≡ self.old.every }
        ensures near { OnOk result ((self.new.near ≡ self.old.near) ⊎ (self.new.near + near_slots ≤ self.old.now)) }
        ensures held { OnOk result (self.new.now ≤ self.new.near + most_near_slots) }
        ensures err { OnErr result (self.new ≡ self.old) }
        ensures counted { OnOk result (meter.new.slots ≡ one_more meter.old.slots) }
        ensures uncounted { OnErr result (meter.new ≡ meter.old) }
        ensures at_most { CountsAtMost 1 meter.old meter.new }
        ensures compared { meter.old.compared ≤ meter.new.compared }
        ensures comparisons { meter.new.compared ≤ meter.old.compared + most_comparisons_at scenario.now self.old.now }
    {
        let events = scenario.slot_events(self.engine.now())?;
        self.denials.reserve(events.len())?;
        self.checkpoints.keep(&self.engine, self.denials.len())?;
        self.near.keep(&self.engine, self.denials.len())?;
        self.rows.push_idle(scenario.settings().processors())?;
        let taken = match self.engine.slot(meter, &events) {
            Ok(taken) => taken,
            Err(refused) => {
                self.rows.pop();
                return Err(refused);
            }
        };
        self.rows.seat_last(taken.count(), taken.picks());
        self.denials.extend_reserved(taken.denials());
        self.denials.share();
        self.near.trim();
        self.scenario = Snapshot::of(scenario);
        Ok(())
    }

    /// A candidate one slot longer, for the scenario that this timeline stands for. Counts as `step` does.
    ///
    /// # Errors
    ///
    /// `AtHorizon` where there is no next slot; `NoMemory` where memory is refused.
    pub fn stepped(&self, meter: &mut Meter, scenario: &Scenario) -> Result<Self, StepFault>
        requires { StandsFor scenario.now self.now.now self.now }
        ensures ok { IfOk result (λ t. StandsFor scenario.now (self.now.now + 1) t) }
        ensures every { IfOk result (λ t. t.every ≡ self.now.every) }
        ensures near { IfOk result (λ t. (t.near ≡ self.now.near) ⊎ (t.near + near_slots ≤ self.now.now)) }
        ensures horizon { (result ≡ Err AtHorizon) ↔ (self.now.now ≡ scenario.now.settings.horizon) }
        ensures counted { OnOk result (meter.new.slots ≡ one_more meter.old.slots) }
        ensures uncounted { OnErr result (meter.new ≡ meter.old) }
        ensures at_most { CountsAtMost 1 meter.old meter.new }
        ensures compared { meter.old.compared ≤ meter.new.compared }
        ensures comparisons { meter.new.compared ≤ meter.old.compared + most_comparisons_at scenario.now self.now.now }
    {
        if self.now() == scenario.settings().horizon() {
            return Err(StepFault::AtHorizon);
        }
        let mut longer = self.copy(scenario)?;
        longer.advance(meter, scenario)?;
        Ok(longer)
    }

    /// A candidate of as many slots for a scenario with the same settings that differs from that of this timeline on the
    /// slots from `from` on only, where `from` is below now. It is made apart from this one, from the last checkpoint not
    /// after `from` on. Counts at most now - `from` slots and the distance of two checkpoints, of two near ones where these
    /// reach back to `from`, and at most now, with an error too.
    ///
    /// # Errors
    ///
    /// Where memory is refused.
    pub fn rewritten(
        &self,
        meter: &mut Meter,
        from: u64,
        scenario: &Scenario,
    ) -> Result<Self, AllocError>
        requires below { from < self.now.now }
        requires agrees { AgreesBelow scenario.now from self.now }
        ensures stands { IfOk result (λ t. StandsFor scenario.now self.now.now t) }
        ensures every { IfOk result (λ t. t.every ≡ self.now.every) }
        ensures near { IfOk result (λ t. (t.near ≤ self.now.near) ⊎ (t.near + near_slots ≤ self.now.now)) }
        ensures at_most { CountsAtMost (self.now.now - from + self.now.every) meter.old meter.new }
        ensures close { self.now.near ≤ from → CountsAtMost (self.now.now - from + near_distance) meter.old meter.new }
        ensures within { CountsAtMost self.now.now meter.old meter.new }
        ensures compared { meter.old.compared ≤ meter.new.compared }
    {
        let mut fresh = self.front(meter, from, scenario)?;
        for _ in fresh.now()..self.engine.now() {
            fresh.advance(meter, scenario)?;
        }
        Ok(fresh)
    }

    /// The front of the run up to the last checkpoint not after `from`, for a scenario that agrees with this one's below
    /// `from`, which is below now. Counts no slot.
    fn front(&self, meter: &mut Meter, from: u64, scenario: &Scenario) -> Result<Self, AllocError>
        requires below { from < self.now.now }
        requires agrees { AgreesBelow scenario.now from self.now }
        ensures stands { IfOk result (λ t. StandsFor scenario.now t.now t) }
        ensures not_behind { IfOk result (λ t. t.now ≤ from) }
        ensures distance { IfOk result (λ t. from < t.now + self.now.every) }
        ensures close { self.now.near ≤ from → IfOk result (λ t. from < t.now + near_distance) }
        ensures every { IfOk result (λ t. t.every ≡ self.now.every) }
        ensures near { IfOk result (λ t. t.near ≤ self.now.near) }
        ensures slots { meter.new.slots ≡ meter.old.slots }
        ensures compared { meter.old.compared ≤ meter.new.compared }
    {
        // Asked, so that it is known to be a scenario.
        let _ = scenario.settings();
        let start = last_of(&self.checkpoints, &self.near, from);
        let slot = start.engine.now();
        Ok(Timeline {
            rows: first_rows(&self.rows, slot)?,
            denials: self.denials.first(start.denials)?,
            engine: start.engine.engine(meter)?,
            checkpoints: self.checkpoints.up_to(slot)?,
            near: self.near.up_to(slot)?,
            scenario: Snapshot::of(scenario),
        })
    }

    /// An equal timeline, where this one stands for the scenario. It shares the checkpoints, the denials and the full blocks
    /// of rows with this one, so it costs the same however many slots there are.
    ///
    /// # Errors
    ///
    /// Where memory is refused.
    pub fn copy(&self, scenario: &Scenario) -> Result<Self, AllocError>
        requires { StandsFor scenario.now self.now.now self.now }
        ensures { IfOk result (λ t. t ≡ self.now) }
    {
        Ok(Timeline {
            rows: self.rows.copy()?,
            denials: self.denials.copy()?,
            engine: self.engine.copy()?,
            checkpoints: self.checkpoints.copy()?,
            near: self.near.copy()?,
            scenario: Snapshot::of(scenario),
        })
    }

    /// The rows of its slots.
    pub fn rows(&self) -> &Rows
        ensures { result.now ≡ self.now.rows }
    {
        &self.rows
    }

    /// The denials of its slots, in run order.
    pub fn denials(&self) -> &[Denied]
        ensures { result.now ≡ self.now.denials }
    {
        self.denials.as_slice()
    }

    /// The denials of its slots, in run order, as they are kept: a copy shares them, so it costs the same however many there
    /// are.
    pub fn shared_denials(&self) -> &SharedVec<Denied>
        ensures { result.now.items ≡ self.now.denials }
    {
        &self.denials
    }

    /// How many slots it has.
    pub fn now(&self) -> u64
        ensures { result ≡ self.now.now }
    {
        self.engine.now()
    }

    /// How far its checkpoints lie apart, in slots.
    pub fn distance(&self) -> u64
        ensures { result ≡ self.now.every }
    {
        self.checkpoints.every()
    }
}

/// The first rows, as many as `count`.
fn first_rows(rows: &Rows, count: u64) -> Result<Rows, AllocError>
    requires { count ≤ length rows.now }
    ensures { IfOk result (λ first. first ≡ take count rows.now) }
{
    let mut first = rows.copy()?;
    for _ in count..rows.len() as u64 {
        first.pop();
    }
    Ok(first)
}
