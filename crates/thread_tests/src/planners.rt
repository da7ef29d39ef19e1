//! Two planners at one desk, each in a thread of its own.
ghost use Rattle.std.specs.Prelude.{◌≡◌, All};
ghost use Rattle.pf_board.specs.Passes.{AreOf};
ghost use Rattle.pf_share.specs.Locked.{origin_of};

use crate::answers::join as join_of;
use crate::calls::edit;
use crate::opening::{end, open_desk, start};
use crate::passes::{let_go, pop_two};
use pf_desk::command::Command;
use pf_desk::history::History;
use pf_scenario::change::Change;
use pf_scenario::event::Event;
use pf_scenario::settings::Settings;
use pf_share::blank::Blank;
use pf_share::calls::DeskPass;
use pf_share::closed::Closed;
use pf_share::locked::Locked;
use pf_share::naming::Naming;
use pf_share::shared::Shared;
use std::alloc::{AllocError, Global};
use std::marker::Brand;
use std::process::Abort;
use std::sync::Wait;
use std::test::Fail;
use std::thread::{Threads, join};

/// So many tasks join by each planner.
const JOINS: u32 = 100;

/// The task of a caller's join, whose own are numbered from 0.
fn task_of(caller: u32, number: u32) -> u64 {
    u64::from(caller) * u64::from(JOINS) + u64::from(number) + 1
}

/// Has a hundred tasks join, of numbers that no other caller's have; fewer where memory is refused.
fn insert<N: Naming, H: Wait + Drop>(
    rt: &impl Wait,
    shared: &Shared<N, Locked<N, H>>,
    mut pass: DeskPass,
) -> DeskPass
    requires { pass.board ≡ N.board.id }
    ensures { result.board ≡ N.board.id }
{
    let me = pass.me();
    for number in 0..JOINS {
        let Ok(_) = edit(rt, shared, &mut pass, join_of(task_of(me, number), 2, 3)) else {
            break;
        };
    }
    pass
}

/// Both planners insert at once.
fn insert_both<N: Naming + Send + Sync, H: Wait + Drop + Send, R: Threads + Wait + Sync>(
    rt: &R,
    shared: &Shared<N, Locked<N, H>>,
    first: DeskPass,
    second: DeskPass,
) -> (DeskPass, DeskPass)
    requires { (first.board ≡ N.board.id) × (second.board ≡ N.board.id) }
    ensures { (result.0.board ≡ N.board.id) × (result.1.board ≡ N.board.id) }
{
    join(
        rt,
        || -> DeskPass
            requires { first.board ≡ N.board.id }
            ensures { result.board ≡ N.board.id }
        { insert(rt, shared, first) },
        || -> DeskPass
            requires { second.board ≡ N.board.id }
            ensures { result.board ≡ N.board.id }
        { insert(rt, shared, second) },
    )
}

/// What is left of the desk after both inserted.
fn use_desk<
    N: Naming + Send + Sync,
    H: Wait + Drop + Send,
    R: Threads + Wait + Abort + Print + Sync,
>(rt: &R, blank: Blank<H>) -> Option<Closed>
    requires name { (blank.board ≡ N.board) × (blank.book ≡ N.book) }
    requires passes { AreOf N.board.id blank.passes }
    requires viewers { All (λ v. v.origin ≡ origin_of N.board N.book) blank.viewers }
{
    let mut opened = start::<N, H>(blank);
    match pop_two::<N>(&mut opened.passes) {
        Some((first, second)) => {
            let (first, second) = insert_both(rt, &opened.shared, first, second);
            end(rt, opened, first, second)
        }
        None => {
            let_go(opened);
            None
        }
    }
}

/// The tasks whose joins the caller inserted, in their order.
fn tasks_of(alloc: Global, history: &History, caller: u32) -> Result<Vec<u64>, AllocError> {
    let mut tasks = Vec::new(alloc);
    for k in 0..history.len() {
        let Some(entry) = history.entry(k) else {
            break;
        };
        let Command::Edit {
            change: Change::Insert(Event::Join { task, .. }),
            ..
        } = entry.command
        else {
            continue;
        };
        if entry.caller == caller {
            tasks.push(task)?;
        }
    }
    Ok(tasks)
}

/// Fails the test where the caller inserted other joins than its hundred, or in another order.
fn expect_joins(rt: &(impl Abort + AllocGlobal), history: &History, caller: u32) {
    let tasks = tasks_of(rt.alloc(), history, caller).expect(rt, "memory is ample");
    assert_eq!(rt; tasks.len(), JOINS as usize);
    for number in 0..JOINS {
        let task = tasks.get(number as usize).copied();
        assert_eq!(rt; task, Some(task_of(caller, number)));
    }
}

#[test]
fn two_planners(rt: HostRuntime) -> Result<(), Fail> {
    let blank = open_desk(&rt, rt.alloc(), Settings::new(2, 3, 6)?, 2, 2, 1)?;
    let closed = use_desk::<Brand, _, _>(&rt, blank).ok_or("closed")?;
    let history = closed.desk.history();
    assert_eq!(&rt; history.len(), 2 * JOINS as usize);
    expect_joins(&rt, history, 0);
    expect_joins(&rt, history, 1);
    Ok(())
}
