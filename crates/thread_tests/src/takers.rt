//! A planner that steps at a desk of one processor, and two threads that take each step's quantum.
ghost use Rattle.std.specs.Prelude.{◌≡◌, All, IfSome};
ghost use Rattle.std.specs.Thread.{IsSend, IsSync};
ghost use Rattle.pf_board.specs.Passes.{AreOf};
ghost use Rattle.pf_share.specs.Locked.{origin_of};

use crate::answers::{expect_each_once, expect_edit, join as join_of};
use crate::calls::{edit, step, take};
use crate::opening::{end, open_desk, start};
use crate::passes::{let_go, pop, pop_two, put};
use pf_board::quantum::Quantum;
use pf_board::take::Take;
use pf_scenario::settings::Settings;
use pf_share::blank::Blank;
use pf_share::calls::DeskPass;
use pf_share::closed::Closed;
use pf_share::locked::Locked;
use pf_share::naming::Naming;
use pf_share::opened::Opened;
use pf_share::shared::Shared;
use pf_share::step_refusal::StepRefusal;
use std::alloc::AllocError;
use std::marker::Brand;
use std::process::Abort;
use std::sync::Wait;
use std::sync::atomic::AtomicU64;
use std::sync::atomic::Ordering::SeqCst;
use std::test::Fail;
use std::thread::{Threads, join, yield_now};

/// So many slots are taken.
const STEPS: u32 = 1_000;

/// A thread that takes so many turns gives up, which fails the test.
const TURNS: u64 = 10_000_000;

/// A pass, and the subtasks whose quanta it took.
type Taker = (DeskPass, Vec<u32>);

/// Steps until so many slots are taken, and then says so. Fewer are taken where memory is refused.
fn plan<N: Naming, H: Wait + Drop>(
    rt: &impl Wait,
    shared: &Shared<N, Locked<N, H>>,
    mut pass: DeskPass,
    done: &AtomicU64,
) -> DeskPass
    requires { pass.board ≡ N.board.id }
    ensures { result.board ≡ N.board.id }
{
    let mut steps = 0;
    for _ in 0..TURNS {
        if steps >= STEPS {
            break;
        }
        match step(rt, shared, &mut pass) {
            Ok(Some(_)) => steps += 1,
            Err(StepRefusal::Pending { .. }) => yield_now(),
            _ => break,
        }
    }
    done.store(1, SeqCst);
    pass
}

/// Takes once, and lists the subtask whose quantum it got.
fn take_once<N: Naming, L: Drop>(
    shared: &Shared<N, L>,
    pass: &mut DeskPass,
    subs: &mut Vec<u32>,
) -> Result<(), AllocError>
    requires { pass.old.board ≡ N.board.id }
    ensures { pass.new.board ≡ N.board.id }
{
    match take(shared, pass, 0) {
        Take::Got(quantum) => subs.push(quantum.sub)?,
        _ => yield_now(),
    }
    Ok(())
}

/// Takes until the planner is done. None where that takes too many turns, or memory is refused.
fn dispatch<N: Naming, L: Drop>(
    rt: &impl AllocGlobal,
    shared: &Shared<N, L>,
    mut pass: DeskPass,
    done: &AtomicU64,
) -> Option<Taker>
    requires { pass.board ≡ N.board.id }
    ensures { IfSome result (λ r. r.0.board ≡ N.board.id) }
{
    let mut subs = Vec::new(rt.alloc());
    for _ in 0..TURNS {
        if done.load(SeqCst) == 1 {
            return Some((pass, subs));
        }
        let Ok(()) = take_once(shared, &mut pass, &mut subs) else {
            break;
        };
    }
    None
}

/// Both takers take at once.
fn dispatch_both<N: Naming + Send + Sync, H: Wait + Drop + Send, R: Threads + AllocGlobal + Sync>(
    rt: &R,
    shared: &Shared<N, Locked<N, H>>,
    first: DeskPass,
    second: DeskPass,
    done: &AtomicU64,
) -> Option<(Taker, Taker)>
    requires { (first.board ≡ N.board.id) × (second.board ≡ N.board.id) }
    ensures { IfSome result (λ r. (r.0.0.board ≡ N.board.id) × (r.1.0.board ≡ N.board.id)) }
{
    let (first, second) = join(
        rt,
        || -> Option<Taker>
            requires { first.board ≡ N.board.id }
            ensures { IfSome result (λ r. r.0.board ≡ N.board.id) }
        { dispatch(rt, shared, first, done) },
        || -> Option<Taker>
            requires { second.board ≡ N.board.id }
            ensures { IfSome result (λ r. r.0.board ≡ N.board.id) }
        { dispatch(rt, shared, second, done) },
    );
    Some((first?, second?))
}

/// The planner steps while both takers take.
fn work_at_once<
    N: Naming + Send + Sync,
    H: Wait + Drop + Send,
    R: Threads + Wait + AllocGlobal + Sync,
>(
    rt: &R,
    shared: &Shared<N, Locked<N, H>>,
    planner: DeskPass,
    first: DeskPass,
    second: DeskPass,
) -> Option<(DeskPass, Taker, Taker)>
    requires planner { planner.board ≡ N.board.id }
    requires takers { (first.board ≡ N.board.id) × (second.board ≡ N.board.id) }
    ensures planner { IfSome result (λ r. r.0.board ≡ N.board.id) }
    ensures takers { IfSome result (λ r. (r.1.0.board ≡ N.board.id) × (r.2.0.board ≡ N.board.id)) }
{
    let done = AtomicU64::new(0);
    let (planner, takers) = join(
        rt,
        || -> DeskPass
            requires { planner.board ≡ N.board.id }
            ensures { result.board ≡ N.board.id }
        { plan(rt, shared, planner, &done) },
        || -> Option<(Taker, Taker)>
            requires crosses { IsSync R.row × IsSend N.row × IsSync N.row × IsSend H.row }
            requires takers { (first.board ≡ N.board.id) × (second.board ≡ N.board.id) }
            ensures { IfSome result (λ r. (r.0.0.board ≡ N.board.id) × (r.1.0.board ≡ N.board.id)) }
        { dispatch_both(rt, shared, first, second, &done) },
    );
    let (first, second) = takers?;
    Some((planner, first, second))
}

/// A task that fills the processor joins, and then all work. The answer is what three passes have.
fn work<
    N: Naming + Send + Sync,
    H: Wait + Drop + Send,
    R: Threads + Wait + Abort + AllocGlobal + Sync,
>(rt: &R, opened: &mut Opened<N, H>) -> Option<(DeskPass, Taker, Taker)>
    requires { AreOf N.board.id opened.old.passes.items }
    ensures rest { AreOf N.board.id opened.new.passes.items }
    ensures planner { IfSome result (λ r. r.0.board ≡ N.board.id) }
    ensures takers { IfSome result (λ r. (r.1.0.board ≡ N.board.id) × (r.2.0.board ≡ N.board.id)) }
{
    let (first, second) = pop_two::<N>(&mut opened.passes)?;
    let mut planner = pop::<N>(&mut opened.passes)?;
    let joined = edit(rt, &opened.shared, &mut planner, join_of(1, 1, 1));
    expect_edit(rt, joined, (1, 1));
    work_at_once(rt, &opened.shared, planner, first, second)
}

/// All subtasks: those that the takers got, and those whose quanta are left.
fn add_all(
    mut subs: Vec<u32>,
    mut others: Vec<u32>,
    left: &[Quantum],
) -> Result<Vec<u32>, AllocError> {
    subs.append(&mut others)?;
    for quantum in left {
        subs.push(quantum.sub)?;
    }
    Ok(subs)
}

/// Ends the desk once all work is done.
fn finish<N: Naming, H: Wait + Drop>(
    rt: &(impl Wait + Abort + Print),
    mut opened: Opened<N, H>,
    planner: DeskPass,
    first: DeskPass,
    second: DeskPass,
) -> Option<Closed>
    requires rest { AreOf N.board.id opened.passes.items }
    requires planner { planner.board ≡ N.board.id }
    requires takers { (first.board ≡ N.board.id) × (second.board ≡ N.board.id) }
{
    if put::<N>(&mut opened.passes, planner) {
        end(rt, opened, first, second)
    } else {
        let_go(opened);
        None
    }
}

/// What is left of the desk, and the subtasks that each taker got.
fn use_desk<
    N: Naming + Send + Sync,
    H: Wait + Drop + Send,
    R: Threads + Wait + Abort + Print + AllocGlobal + Sync,
>(rt: &R, blank: Blank<H>) -> Option<(Closed, Vec<u32>, Vec<u32>)>
    requires name { (blank.board ≡ N.board) × (blank.book ≡ N.book) }
    requires passes { AreOf N.board.id blank.passes }
    requires viewers { All (λ v. v.origin ≡ origin_of N.board N.book) blank.viewers }
{
    let mut opened = start::<N, H>(blank);
    match work(rt, &mut opened) {
        Some((planner, (first, subs), (second, others))) => {
            let closed = finish(rt, opened, planner, first, second)?;
            Some((closed, subs, others))
        }
        None => {
            let_go(opened);
            None
        }
    }
}

#[test]
fn a_thousand_steps_taken_by_two_threads(rt: HostRuntime) -> Result<(), Fail> {
    let blank = open_desk(&rt, rt.alloc(), Settings::new(1, 1, 1)?, 8, 3, 1)?;
    let (closed, subs, others) = use_desk::<Brand, _, _>(&rt, blank).ok_or("closed")?;
    let all = add_all(subs, others, &closed.left)?;
    expect_each_once(&rt, all, STEPS);
    Ok(())
}
