//! Boards of the tests' entries.
ghost use Rattle.std.specs.Prelude.{◌≡◌, ◌+◌, ◌<◌, ◌^◌, ◌++◌, ◌∷◌, [], true, length, IfSome, IfNone};
ghost use Rattle.pf_board.specs.Quanta.{times, issues};
ghost use Rattle.pf_board.specs.Words.{FitsWord};
ghost use Rattle.thread_tests.specs.Entries.{quanta_of, step_of};

use crate::entry::Entry;
use pf_board::board::Board;
use pf_board::issues::Issues;
use pf_board::keeper::Keeper;
use pf_board::pass::Pass;
use pf_board::quantum::Quantum;

/// What the entries mean: every history is legal.
pub struct Steps;

impl Issues<Entry> for Steps {
    ghost use Rattle.std.specs.Prelude.{ℕ};
    ghost use Rattle.thread_tests.specs.Entries.{quanta_of};

    type Terms = u32;

    ghost quanta = { quanta_of };

    ghost steps = { λ e. e.is_step };

    ghost legal = { λ terms log. Unit {0} };

    ghost opens = { λ terms. tt };
}

pub type StepBoard = Board<Entry, Steps>;

pub type StepKeeper = Keeper<Entry, Steps>;

pub type StepPass = Pass<Entry, Steps>;

/// Enters a step of this one quantum and puts it onto its word. The answer is the number of entries, or None where a
/// quantum still lies on a word.
pub fn enter(
    board: &StepBoard,
    keeper: &mut StepKeeper,
    pass: &mut StepPass,
    quantum: Quantum,
) -> Option<u64>
    requires board { (keeper.old.board ≡ board.now.id) × (pass.old.board ≡ board.now.id) }
    requires here { (keeper.old.has_turn ≡ true) × (keeper.old.left ≡ []) }
    requires room { length keeper.old.seen + 1 < 2 ^ 64 }
    requires fits { FitsWord quantum × (quantum.processor < board.now.processors) }
    requires fresh { times quantum (issues quanta_of keeper.old.seen) ≡ 0 }
    ensures some { IfSome result (λ n. keeper.new.seen ≡ keeper.old.seen ++ (pass.old.me, step_of quantum) ∷ []) }
    ensures none { IfNone result (keeper.new.seen ≡ keeper.old.seen) }
    ensures keeper { (keeper.new.board ≡ board.now.id) × (keeper.new.has_turn ≡ true) × (keeper.new.left ≡ []) }
    ensures pass { (pass.new.board ≡ board.now.id) × (pass.new.me ≡ pass.old.me) }
{
    let None = board.check(keeper) else {
        return None;
    };
    let turn = board.turn(keeper);
    let entry = Entry {
        is_step: true,
        quantum,
    };
    let count = board.note(keeper, pass, turn, &entry);
    board.issue(keeper, quantum);
    Some(count)
}
