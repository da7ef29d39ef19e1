//! Laws over the definitions alone.
ghost use Rattle.pf_board.specs.Machine.{QuantaAreConserved};
ghost use Rattle.pf_board.specs.Shown.{BoardShowsTheMachine};
ghost use Rattle.pf_board.specs.Words.{AreInverse};

use crate::issues::Issues;

/// Reading a word is the inverse of writing it.
pub fn words_are_inverse()
    ensures { AreInverse }
{}

/// Whatever planners and dispatchers do to one history, the quanta issued are those on the words and those taken, each
/// once.
pub fn quanta_are_conserved<E, I: Issues<E>>(terms: &I::Terms)
    ensures { QuantaAreConserved I.quanta I.steps (I.legal terms.now) }
{
    let _ = terms;
}

/// Whatever passes and keepers do, the words and the views of their board show a state that this machine reaches, but for
/// what is published: a note publishes an entry and enters it, an issue issues, and a take takes.
pub fn board_shows_the_machine<E, I: Issues<E>>()
    ensures { BoardShowsTheMachine I.quanta I.steps I.legal }
{}
