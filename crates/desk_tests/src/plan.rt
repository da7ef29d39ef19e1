//! A desk that is planned, though memory may be refused. A call that was refused is made again, and says so.

use crate::refused::say;
use pf_desk::command::Command;
use pf_desk::command::Command::Step;
use pf_desk::desk::Desk;
use pf_desk::fault::OpenFault;
use pf_order::meter::Meter;
use pf_scenario::change::Change;
use pf_scenario::event::Event;
use pf_scenario::settings::Settings;
use std::alloc::Global;
use std::process::Abort;

/// A change that is not strict.
pub(crate) fn plain(change: Change) -> Command {
    Command::Edit {
        change,
        strict: false,
    }
}

/// A task of weight 1/1 joins.
pub(crate) fn join(slot: u64, task: u64) -> Command {
    plain(Change::Insert(Event::Join {
        slot,
        task,
        cost: 1,
        period: 1,
        early: 0,
    }))
}

/// A desk with a checkpoint each two slots. A caller that needs no clause of `Desk::open` calls this.
pub(crate) fn open(alloc: Global, settings: Settings) -> Result<Desk, OpenFault> {
    Desk::open(alloc, settings, 2)
}

/// The same, again where memory is refused.
pub(crate) fn open_again(rt: &(impl Abort + Print), alloc: Global, settings: Settings) -> Desk {
    match open(alloc, settings) {
        Ok(desk) => desk,
        Err(_) => {
            say(rt, "Desk::open");
            open(alloc, settings).expect(rt, "it is opened again")
        }
    }
}

/// Whether a command was answered. A caller that needs no clause of `Desk::apply` calls this.
pub(crate) fn is_applied(desk: &mut Desk, command: Command) -> bool {
    desk.apply(&mut Meter::new(), 0, command).is_ok()
}

/// Carries a command out, again where memory is refused.
pub(crate) fn apply_again(rt: &(impl Abort + Print), desk: &mut Desk, command: Command) {
    if !is_applied(desk, command) {
        say(rt, "Desk::apply");
        assert!(rt; is_applied(desk, command));
    }
}

/// Carries out the commands.
pub(crate) fn apply_each(rt: &(impl Abort + Print), desk: &mut Desk, commands: &[Command]) {
    for command in commands {
        apply_again(rt, desk, *command);
    }
}

/// Whether a step was answered. A caller that needs no clause of `Desk::step` calls this.
pub(crate) fn is_stepped(desk: &mut Desk) -> bool {
    desk.step(&mut Meter::new(), 0).is_ok()
}

/// Takes the next slot, again where memory is refused.
fn take_again(rt: &(impl Abort + Print), desk: &mut Desk) {
    if !is_stepped(desk) {
        say(rt, "Desk::step");
        assert!(rt; is_stepped(desk));
    }
}

/// Twenty tasks join in slot 9: so many that the desk's parts grow.
fn join_ahead(rt: &(impl Abort + Print), desk: &mut Desk) {
    for task in 3..23 {
        apply_again(rt, desk, join(9, task));
    }
}

/// Whether plain edits were carried out. A caller that needs no clause of `Desk::apply_all` calls this.
fn are_applied(desk: &mut Desk, edits: &[Command]) -> bool {
    desk.apply_all(&mut Meter::new(), 0, edits).is_ok()
}

/// Carries out plain edits, again where memory is refused.
fn edit_again(rt: &(impl Abort + Print), desk: &mut Desk, edits: &[Command]) {
    if !are_applied(desk, edits) {
        say(rt, "Desk::apply_all");
        assert!(rt; are_applied(desk, edits));
    }
}

/// Two tasks join and three slots are taken. Then task 2 is delayed in slot 0, which is struck; the second strike finds nothing.
fn plan(rt: &(impl Abort + Print), desk: &mut Desk) {
    let delay = plain(Change::Insert(Event::Delay {
        slot: 0,
        task: 2,
        by: 1,
    }));
    let strike = plain(Change::Strike(23));
    apply_each(rt, desk, &[join(0, 1), join(0, 2)]);
    join_ahead(rt, desk);
    apply_each(rt, desk, &[Step, Step]);
    take_again(rt, desk);
    apply_again(rt, desk, delay);
    edit_again(rt, desk, &[strike, strike]);
}

/// A desk of two tasks of weight 1/1 on one processor, after three slots and 28 entries.
pub(crate) fn overload(rt: &(impl Abort + Print), alloc: Global) -> Desk {
    let settings = Settings::new(1, 1, 2).expect(rt, "settings");
    let mut desk = open_again(rt, alloc, settings);
    plan(rt, &mut desk);
    desk
}
