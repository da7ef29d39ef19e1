//! Slots of a scenario, though memory may be refused. A call that was refused is made again, and says so.

ghost use Rattle.std.specs.Prelude.{◌≡◌, IfOk, OnOk, OnErr};
ghost use Rattle.pf_timeline.specs.Timeline.{StandsFor};

use crate::base::refused::say;
use pf_order::meter::Meter;
use pf_order::pick::Pick;
use pf_scenario::change::Change;
use pf_scenario::event::Event;
use pf_scenario::scenario::Scenario;
use pf_scenario::settings::Settings;
use pf_timeline::fault::{NewFault, StepFault};
use pf_timeline::timeline::Timeline;
use std::alloc::Global;
use std::process::Abort;

/// A task of weight 1/24 joins: of the tasks 1 to 3 in slot 0, of the others in slot 1.
fn join(task: u64) -> Change {
    Change::Insert(Event::Join {
        slot: u64::from(task > 3),
        task,
        cost: 1,
        period: 24,
        early: 0,
    })
}

/// Whether the task was let join. A caller that needs no clause of `Scenario::apply` calls this.
fn is_inserted(scenario: &mut Scenario, task: u64) -> bool {
    scenario.apply(join(task)).is_ok()
}

/// So many tasks join that each part of the scenario, of the engine and of its calendar grows. Where memory is refused, the call
/// is made again.
fn join_all(rt: &(impl Abort + Print), scenario: &mut Scenario) {
    for task in 1..24 {
        if !is_inserted(scenario, task) {
            say(rt, "Scenario::apply");
            assert!(rt; is_inserted(scenario, task));
        }
    }
}

/// A timeline of no slots of the scenario with checkpoints two slots apart.
fn start(alloc: Global, scenario: &Scenario) -> Result<Timeline, NewFault>
    ensures { IfOk result (λ t. StandsFor scenario.now t.now t) }
{
    Timeline::new(alloc, scenario.settings(), 2)
}

/// The same, again where memory is refused.
fn start_again(rt: &(impl Abort + Print), alloc: Global, scenario: &Scenario) -> Timeline
    ensures { StandsFor scenario.now result.now result }
{
    match start(alloc, scenario) {
        Ok(timeline) => timeline,
        Err(_) => {
            say(rt, "Timeline::new");
            start(alloc, scenario).expect(rt, "it is made again")
        }
    }
}

/// Takes the next slot.
fn step(timeline: &mut Timeline, scenario: &Scenario) -> Result<(), StepFault>
    requires { StandsFor scenario.now timeline.old.now timeline.old }
    ensures ok { OnOk result (StandsFor scenario.now timeline.new.now timeline.new) }
    ensures err { OnErr result (timeline.new ≡ timeline.old) }
{
    timeline.step(&mut Meter::new(), scenario)
}

/// Takes the next slot, again where memory is refused.
fn step_again(rt: &(impl Abort + Print), timeline: &mut Timeline, scenario: &Scenario)
    requires { StandsFor scenario.now timeline.old.now timeline.old }
    ensures { StandsFor scenario.now timeline.new.now timeline.new }
{
    match step(timeline, scenario) {
        Ok(()) => (),
        Err(_) => {
            say(rt, "Timeline::step");
            step(timeline, scenario).expect(rt, "it is taken again");
        }
    }
}

/// The timeline with the next slot too, again where memory is refused.
fn stepped_again(rt: &(impl Abort + Print), timeline: &Timeline, scenario: &Scenario) -> Timeline
    requires { StandsFor scenario.now timeline.now.now timeline.now }
{
    match timeline.stepped(&mut Meter::new(), scenario) {
        Ok(longer) => longer,
        Err(_) => {
            say(rt, "Timeline::stepped");
            let longer = timeline.stepped(&mut Meter::new(), scenario);
            longer.expect(rt, "it is made again")
        }
    }
}

/// A timeline of four slots, the last of which was taken by a copy.
fn four_slots(rt: &(impl Abort + Print), alloc: Global, scenario: &Scenario) -> Timeline {
    let mut timeline = start_again(rt, alloc, scenario);
    for _ in 0..3 {
        step_again(rt, &mut timeline, scenario);
    }
    stepped_again(rt, &timeline, scenario)
}

/// Who runs on the two processors in the slot.
fn who(timeline: &Timeline, slot: u64) -> Option<[Option<Pick>; 2]> {
    let row = timeline.rows().get(slot)?;
    Some([row.get(0), row.get(1)])
}

/// The task's first subtask.
fn first(task: u32) -> Option<Pick> {
    Some(Pick { task, sub: 1 })
}

/// Fails where others run in the slot than the first subtasks of these two tasks.
fn runs(rt: &impl Abort, timeline: &Timeline, slot: u64, tasks: (u32, u32)) {
    assert_eq!(rt; who(timeline, slot), Some([first(tasks.0), first(tasks.1)]));
}

/// Those run whose window ends first, and of several the lowest numbers.
fn are_stepped(rt: &(impl Abort + AllocGlobal + Print), scenario: &Scenario) {
    let timeline = four_slots(rt, rt.alloc(), scenario);
    for (slot, tasks) in [(0, (1, 2)), (1, (3, 4)), (2, (5, 6)), (3, (7, 8))] {
        runs(rt, &timeline, slot, tasks);
    }
}

#[test]
fn slots_are_stepped_again(rt: HostRuntime) {
    let settings = Settings::new(2, 24, 48).expect(&rt, "settings");
    let mut scenario = Scenario::new(rt.alloc(), settings);
    join_all(&rt, &mut scenario);
    are_stepped(&rt, &scenario);
}
