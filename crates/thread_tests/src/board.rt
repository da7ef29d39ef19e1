//! One step of two processors on a board, and who gets its quantum.
ghost use Rattle.std.specs.Prelude.{◌≡◌, [], true};

use crate::answers::{expect_take, quantum};
use crate::steps::{StepBoard, StepKeeper, StepPass, enter};
use pf_board::board::Board;
use pf_board::take::Take;
use std::process::Abort;
use std::test::Fail;

/// Gives a turn back, and enters with another one a step of one quantum, on processor 1. The answer is the number of entries.
fn enter_once(board: &StepBoard, keeper: &mut StepKeeper, pass: &mut StepPass) -> Option<u64>
    requires board { (keeper.old.board ≡ board.now.id) × (pass.old.board ≡ board.now.id) × (board.now.processors ≡ 2) }
    requires here { (keeper.old.has_turn ≡ true) × (keeper.old.left ≡ []) × (keeper.old.seen ≡ []) }
    ensures board { (keeper.new.board ≡ board.now.id) × (pass.new.board ≡ board.now.id) }
    ensures here { (keeper.new.has_turn ≡ true) × (keeper.new.left ≡ []) }
{
    let turn = board.turn(keeper);
    board.back(keeper, turn);
    enter(board, keeper, pass, quantum(0, 1, 2, 1))
}

/// Fails the test where the lowest processor with an untaken quantum is another one.
fn expect_check(rt: &impl Abort, board: &StepBoard, keeper: &mut StepKeeper, wanted: Option<u32>)
    requires board { keeper.old.board ≡ board.now.id }
    requires here { (keeper.old.has_turn ≡ true) × (keeper.old.left ≡ []) }
    ensures board { keeper.new.board ≡ board.now.id }
    ensures here { (keeper.new.has_turn ≡ true) × (keeper.new.left ≡ []) }
{
    let found = board.check(keeper);
    assert_eq!(rt; found, wanted);
}

/// Takes the quantum of a processor.
fn take(board: &StepBoard, pass: &mut StepPass, processor: u32) -> Take
    requires { pass.old.board ≡ board.now.id }
    ensures { pass.new.board ≡ board.now.id }
{
    board.take(pass, processor)
}

/// The first pass takes the quantum of processor 1, and then nobody gets one.
fn take_once(rt: &impl Abort, board: &StepBoard, first: &mut StepPass, second: &mut StepPass)
    requires { (first.old.board ≡ board.now.id) × (second.old.board ≡ board.now.id) }
    ensures { (first.new.board ≡ board.now.id) × (second.new.board ≡ board.now.id) }
{
    expect_take(rt, take(board, first, 1), Take::Got(quantum(0, 1, 2, 1)));
    expect_take(rt, take(board, second, 1), Take::Empty);
    expect_take(rt, take(board, second, 2), Take::NoProcessor);
}

/// A step by the first pass, its quantum, and what the second pass then sees.
fn use_board(
    rt: &impl Abort,
    board: &StepBoard,
    keeper: &mut StepKeeper,
    first: &mut StepPass,
    second: &mut StepPass,
)
    requires board { (keeper.old.board ≡ board.now.id) × (board.now.processors ≡ 2) }
    requires passes { (first.old.board ≡ board.now.id) × (second.old.board ≡ board.now.id) }
    requires here { (keeper.old.has_turn ≡ true) × (keeper.old.left ≡ []) × (keeper.old.seen ≡ []) }
    ensures board { keeper.new.board ≡ board.now.id }
    ensures passes { (first.new.board ≡ board.now.id) × (second.new.board ≡ board.now.id) }
    ensures here { (keeper.new.has_turn ≡ true) × (keeper.new.left ≡ []) }
{
    assert_eq!(rt; enter_once(board, keeper, first), Some(1));
    expect_check(rt, board, keeper, Some(1));
    take_once(rt, board, first, second);
    expect_check(rt, board, keeper, None);
    assert_eq!(rt; board.look(second), 1);
    board.meet(first, second);
    board.tie(keeper, second);
}

#[test]
fn a_board_as_worked(rt: HostRuntime) -> Result<(), Fail> {
    let (board, mut keeper, mut passes) = Board::new(rt.alloc(), &0, 2, 2)?;
    let mut second = passes.pop().ok_or("a pass")?;
    let mut first = passes.pop().ok_or("a pass")?;
    use_board(&rt, &board, &mut keeper, &mut first, &mut second);
    passes.push(first)?;
    passes.push(second)?;
    let left = board.close(keeper, passes).map_err(|_| "closed")?;
    assert!(&rt; left.is_empty());
    Ok(())
}
