//! A command that is made ready, and what a desk and its snapshot show. A call that was refused is made again, and says so.
ghost use Rattle.std.specs.Prelude.{◌≤◌, IfOk, OnOk};
ghost use Rattle.pf_desk.specs.Desk.{IsReadyFor};

use crate::plan::overload;
use crate::refused::say;
use pf_desk::command::Command::Step;
use pf_desk::desk::Desk;
use pf_desk::prepared::Prepared;
use pf_desk::snapshot::Snapshot;
use pf_order::meter::Meter;
use pf_tally::lag::Lag;
use pf_tally::miss::Miss;
use std::alloc::AllocError;
use std::process::Abort;

/// Makes a step ready.
pub(crate) fn prepare(desk: &mut Desk) -> Result<Prepared, AllocError>
    ensures ready { IfOk result (λ p. IsReadyFor desk.new p) }
    ensures room { OnOk result (1 ≤ desk.new.spare) }
{
    desk.prepare(&mut Meter::new(), 0, Step)
}

/// The same, again where memory is refused.
fn prepare_again(rt: &(impl Abort + Print), desk: &mut Desk) -> Prepared
    ensures ready { IsReadyFor desk.new result }
    ensures room { 1 ≤ desk.new.spare }
{
    match prepare(desk) {
        Ok(prepared) => prepared,
        Err(AllocError) => {
            say(rt, "Desk::prepare");
            prepare(desk).expect(rt, "memory is ample")
        }
    }
}

/// Takes the next slot, first made ready.
fn step_again(rt: &(impl Abort + Print), desk: &mut Desk) {
    let prepared = prepare_again(rt, desk);
    let _ = desk.commit(prepared);
}

/// A snapshot of the desk, again where memory is refused.
pub(crate) fn snapshot_again(rt: &(impl Abort + Print), desk: &Desk) -> Snapshot {
    match desk.snapshot() {
        Ok(made) => made,
        Err(AllocError) => {
            say(rt, "Desk::snapshot");
            desk.snapshot().expect(rt, "memory is ample")
        }
    }
}

/// The desk's lags, again where memory is refused.
pub(crate) fn lags_again(rt: &(impl Abort + Print), desk: &Desk) -> Vec<Lag> {
    match desk.lags() {
        Ok(made) => made,
        Err(AllocError) => {
            say(rt, "Desk::lags");
            desk.lags().expect(rt, "memory is ample")
        }
    }
}

/// The desk's missed windows, again where memory is refused.
pub(crate) fn misses_again(rt: &(impl Abort + Print), desk: &Desk) -> Vec<Miss> {
    match desk.misses() {
        Ok(made) => made,
        Err(AllocError) => {
            say(rt, "Desk::misses");
            desk.misses().expect(rt, "memory is ample")
        }
    }
}

/// The snapshot's lags, again where memory is refused.
fn lags_seen_again(rt: &(impl Abort + Print), snapshot: &Snapshot) -> Vec<Lag> {
    match snapshot.lags() {
        Ok(made) => made,
        Err(AllocError) => {
            say(rt, "Snapshot::lags");
            snapshot.lags().expect(rt, "memory is ample")
        }
    }
}

/// The snapshot's missed windows, again where memory is refused.
fn misses_seen_again(rt: &(impl Abort + Print), snapshot: &Snapshot) -> Vec<Miss> {
    match snapshot.misses() {
        Ok(made) => made,
        Err(AllocError) => {
            say(rt, "Snapshot::misses");
            snapshot.misses().expect(rt, "memory is ample")
        }
    }
}

/// The lag of a task of weight 1/1, of which two quanta were received in four slots.
fn lag(task: u32) -> Lag {
    Lag {
        task,
        cost: 1,
        period: 1,
        received: 2,
        scaled: 2,
    }
}

/// A missed window of a task of weight 1/1.
fn miss(task: u32, sub: u32, ran: Option<u64>) -> Miss {
    Miss {
        task,
        sub,
        deadline: u64::from(sub),
        ran,
    }
}

/// Fails where the lags are others, or other windows were missed. The tasks take turns, task 1 first.
fn is_behind(rt: &impl Abort, lags: &[Lag], misses: &[Miss]) {
    assert_eq!(rt; lags, [lag(1), lag(2)].as_slice());
    let missed = [
        miss(2, 1, Some(1)),
        miss(1, 2, Some(2)),
        miss(2, 2, Some(3)),
        miss(1, 3, None),
        miss(2, 3, None),
        miss(1, 4, None),
        miss(2, 4, None),
    ];
    assert_eq!(rt; misses, missed.as_slice());
}

/// What the desk shows.
fn shows_again(rt: &(impl Abort + Print), desk: &Desk) {
    let lags = lags_again(rt, desk);
    let misses = misses_again(rt, desk);
    is_behind(rt, &lags, &misses);
}

/// What its snapshot shows.
fn sees_again(rt: &(impl Abort + Print), seen: &Snapshot) {
    assert_eq!(rt; seen.version(), 29);
    let lags = lags_seen_again(rt, seen);
    let misses = misses_seen_again(rt, seen);
    is_behind(rt, &lags, &misses);
}

/// What the desk and its snapshot show after a step.
fn answers_again(rt: &(impl Abort + Print), desk: &mut Desk) {
    step_again(rt, desk);
    shows_again(rt, desk);
    let seen = snapshot_again(rt, desk);
    sees_again(rt, &seen);
}

#[test]
fn a_desk_answers_again(rt: HostRuntime) {
    let mut desk = overload(&rt, rt.alloc());
    answers_again(&rt, &mut desk);
}
