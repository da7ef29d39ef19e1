//! Two passes race for the quanta of one processor. The thread of the first one steps too, and waits for nobody: it takes
//! a quantum that still lies there. So the race ends on one processor too, whatever else runs there.
ghost use Rattle.std.specs.Prelude.{◌≡◌, ◌+◌, ◌≤◌, [], true, length};
ghost use Rattle.thread_tests.specs.Entries.{IsFreshFrom};

use crate::answers::expect_each_once;
use crate::steps::{StepBoard, StepKeeper, StepPass, enter};
use pf_board::board::Board;
use pf_board::quantum::Quantum;
use pf_board::take::Take;
use std::alloc::{AllocError, Global};
use std::sync::atomic::AtomicU64;
use std::sync::atomic::Ordering::SeqCst;
use std::test::Fail;
use std::thread::{Threads, join, yield_now};

/// So many quanta are issued.
const QUANTA: u32 = 100_000;

/// A thread that takes so many turns gives up, as one does to which memory is refused. Either fails the test.
const TURNS: u64 = 10_000_000_000;

/// Issues the quantum of this subtask, where the one before it was taken. The answer is the next subtask to issue.
#[tactic(auto, using(crate::proofs::Stepping::fresh_after, crate::proofs::Stepping::fresh_same, crate::proofs::Stepping::longer_after, crate::proofs::Stepping::longer_same))]
fn advance(board: &StepBoard, keeper: &mut StepKeeper, pass: &mut StepPass, next: u32) -> u32
    requires board { (keeper.old.board ≡ board.now.id) × (pass.old.board ≡ board.now.id) × (board.now.processors ≡ 1) }
    requires here { (keeper.old.has_turn ≡ true) × (keeper.old.left ≡ []) }
    requires next { (1 ≤ next) × (next ≤ 100000) }
    requires room { length keeper.old.seen + 1 ≤ next }
    requires fresh { IsFreshFrom next keeper.old.seen }
    ensures board { (keeper.new.board ≡ board.now.id) × (pass.new.board ≡ board.now.id) }
    ensures here { (keeper.new.has_turn ≡ true) × (keeper.new.left ≡ []) }
    ensures next { (next ≤ result) × (result ≤ next + 1) }
    ensures room { length keeper.new.seen + 1 ≤ result }
    ensures fresh { IsFreshFrom result keeper.new.seen }
{
    let quantum = Quantum {
        slot: 0,
        processor: 0,
        task: 1,
        sub: next,
    };
    match enter(board, keeper, pass, quantum) {
        Some(_) => next + 1,
        None => next,
    }
}

/// Takes once, and lists the subtask of the quantum that it got. The answer is whether it got one.
fn take_once(
    board: &StepBoard,
    pass: &mut StepPass,
    subs: &mut Vec<u32>,
) -> Result<bool, AllocError>
    requires { pass.old.board ≡ board.now.id }
    ensures { pass.new.board ≡ board.now.id }
{
    if let Take::Got(quantum) = board.take(pass, 0) {
        subs.push(quantum.sub)?;
        return Ok(true);
    }
    Ok(false)
}

/// Steps until each quantum is issued, where it takes one that still lies there, and then says that all are issued. The
/// answer has the subtasks that it got.
fn plan(
    alloc: Global,
    board: &StepBoard,
    mut keeper: StepKeeper,
    mut pass: StepPass,
    done: &AtomicU64,
) -> (StepKeeper, StepPass, Vec<u32>)
    requires board { (keeper.board ≡ board.now.id) × (pass.board ≡ board.now.id) × (board.now.processors ≡ 1) }
    requires here { (keeper.has_turn ≡ true) × (keeper.left ≡ []) × (keeper.seen ≡ []) }
    ensures board { (result.0.board ≡ board.now.id) × (result.1.board ≡ board.now.id) }
    ensures here { (result.0.has_turn ≡ true) × (result.0.left ≡ []) }
{
    let mut subs = Vec::new(alloc);
    let mut next: u32 = 1;
    for _ in 0..TURNS {
        if next > QUANTA {
            break;
        }
        let after = advance(board, &mut keeper, &mut pass, next);
        if after == next && take_once(board, &mut pass, &mut subs).is_err() {
            break;
        }
        next = after;
    }
    done.store(1, SeqCst);
    (keeper, pass, subs)
}

/// Takes until all are issued and none is there. The answer has the subtasks that it got.
fn dispatch(
    alloc: Global,
    board: &StepBoard,
    mut pass: StepPass,
    done: &AtomicU64,
) -> (StepPass, Vec<u32>)
    requires { pass.board ≡ board.now.id }
    ensures { result.0.board ≡ board.now.id }
{
    let mut subs = Vec::new(alloc);
    for _ in 0..TURNS {
        let is_done = done.load(SeqCst) == 1;
        let Ok(got) = take_once(board, &mut pass, &mut subs) else {
            break;
        };
        if got {
            continue;
        }
        if is_done {
            break;
        }
        yield_now();
    }
    (pass, subs)
}

/// What the two threads have left: the keeper, the passes, and the subtasks that each got.
struct Raced {
    keeper: StepKeeper,
    first: (StepPass, Vec<u32>),
    second: (StepPass, Vec<u32>),
}

fn race<R: Threads + Sync>(
    rt: &R,
    alloc: Global,
    board: &StepBoard,
    keeper: StepKeeper,
    first: StepPass,
    second: StepPass,
) -> Raced
    requires board { (keeper.board ≡ board.now.id) × (board.now.processors ≡ 1) }
    requires passes { (first.board ≡ board.now.id) × (second.board ≡ board.now.id) }
    requires here { (keeper.has_turn ≡ true) × (keeper.left ≡ []) × (keeper.seen ≡ []) }
    ensures board { (result.keeper.board ≡ board.now.id) × (result.first.0.board ≡ board.now.id) × (result.second.0.board ≡ board.now.id) }
    ensures here { (result.keeper.has_turn ≡ true) × (result.keeper.left ≡ []) }
{
    let done = AtomicU64::new(0);
    let ((keeper, first, firsts), second) = join(
        rt,
        || -> (StepKeeper, StepPass, Vec<u32>)
            requires { (keeper.board ≡ board.now.id) × (first.board ≡ board.now.id) × (board.now.processors ≡ 1) × (keeper.has_turn ≡ true) × (keeper.left ≡ []) × (keeper.seen ≡ []) }
            ensures { (result.0.board ≡ board.entry.now.id) × (result.1.board ≡ board.entry.now.id) × (result.0.has_turn ≡ true) × (result.0.left ≡ []) }
        { plan(alloc, board, keeper, first, &done) },
        || -> (StepPass, Vec<u32>)
            requires { second.board ≡ board.now.id }
            ensures { result.0.board ≡ board.entry.now.id }
        { dispatch(alloc, board, second, &done) },
    );
    Raced {
        keeper,
        first: (first, firsts),
        second,
    }
}

#[test]
fn each_quantum_is_got_once(rt: HostRuntime) -> Result<(), Fail> {
    let (board, keeper, mut passes) = Board::new(rt.alloc(), &0, 1, 2)?;
    let second = passes.pop().ok_or("a pass")?;
    let first = passes.pop().ok_or("a pass")?;
    let raced = race(&rt, rt.alloc(), &board, keeper, first, second);
    let Raced {
        keeper,
        first: (first, mut subs),
        second: (second, others),
    } = raced;
    for sub in &others {
        subs.push(*sub)?;
    }
    expect_each_once(&rt, subs, QUANTA);
    passes.push(first)?;
    passes.push(second)?;
    let left = board.close(keeper, passes).map_err(|_| "closed")?;
    assert!(&rt; left.is_empty());
    Ok(())
}
