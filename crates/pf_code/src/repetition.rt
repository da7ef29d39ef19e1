ghost use Rattle.std.specs.Prelude.{◌≡◌, ◌≤◌, IfOk};
ghost use Rattle.std.specs.List.{list_all};
ghost use Rattle.pf_code.specs.Repetition.{first_load, is_synchronous, joins_at_start, known_span, repetition_with};

use pf_desk::snapshot::Snapshot;
use pf_scenario::event::Event;
use pf_scenario::scenario::Scenario;
use pf_tally::levels::levels;
use std::alloc::{AllocError, Global};

/// Whether a table repeats.
#[derive(Clone, Copy)]
pub enum Repetition {
    /// The tasks of slot t are those of row t mod so many, for ever.
    Every(u64),
    /// That is not known: more is planned than joins of slot 0 of tasks that never run early.
    OtherEvents,
    /// Nor where no slot was stepped.
    NoSlot,
    /// Nor where the load is above the processors.
    Overload,
    /// Nor where the slots from 0 on, so many, are not all in the table.
    OutOfRange(u64),
}

impl Repetition {
    /// After how many slots it repeats, where that is known.
    pub(crate) fn known_span(self) -> Option<u64>
        ensures { result ≡ known_span self }
    {
        match self {
            Repetition::Every(span) => Some(span),
            _ => None,
        }
    }
}

/// Whether an event is a join of slot 0, of a task that never runs early.
fn joins_at_start(event: &Event) -> bool
    ensures { result ≡ joins_at_start event.now }
{
    match *event {
        Event::Join { slot, early, .. } => slot == 0 && early == 0,
        _ => false,
    }
}

/// Whether each event that is held is one.
fn is_synchronous(scenario: &Scenario) -> bool
    ensures { result ≡ is_synchronous scenario.now }
{
    for numbered in scenario.events() {
        if !joins_at_start(&numbered.event) {
            return false;
        }
    }
    true
}

/// The load after the events of slot 0, in units of 1/h.
#[tactic(auto, unfolding(crate::specs::Repetition::first_load))]
fn first_load(alloc: Global, snapshot: &Snapshot) -> Result<u64, AllocError>
    requires { 1 ≤ snapshot.now.state.now }
    ensures { IfOk result (λ load. load ≡ first_load snapshot.now) }
{
    // That the rows are those of the scenario's run is known from its calls alone.
    let now = snapshot.now();
    prove!(1 <= now);
    let levels = levels(
        alloc,
        snapshot.scenario(),
        snapshot.rows(),
        snapshot.denials(),
        0,
        1,
    )?;
    Ok(levels[0].load)
}

/// Whether the slots from `from` on and below `to` repeat, where each task is owed whole quanta in so many slots.
#[tactic(auto, unfolding(crate::specs::Repetition::repetition_with))]
pub(crate) fn repetition_with(
    alloc: Global,
    snapshot: &Snapshot,
    span: u64,
    from: u64,
    to: u64,
) -> Result<Repetition, AllocError>
    ensures { IfOk result (λ repetition. repetition ≡ repetition_with snapshot.now span from to) }
{
    if !is_synchronous(snapshot.scenario()) {
        return Ok(Repetition::OtherEvents);
    }
    if snapshot.now() == 0 {
        return Ok(Repetition::NoSlot);
    }
    let settings = snapshot.settings();
    let room = settings.base().get() * u64::from(settings.processors());
    if first_load(alloc, snapshot)? > room {
        return Ok(Repetition::Overload);
    }
    if from == 0 && span <= to {
        Ok(Repetition::Every(span))
    } else {
        Ok(Repetition::OutOfRange(span))
    }
}
