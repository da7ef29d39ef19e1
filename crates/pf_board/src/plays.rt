//! The kinds of step on a word.
use crate::issues::{Issues, Names};
use crate::view::View;
use atomic_table::Play;
use std::marker::PhantomData;

/// The pass with the turn adds 1 to the history's length, and enters the entry that `N` names.
pub struct Note<I, N> {
    marker: PhantomData<(I, N)>,
}

impl<E, I: Issues<E>, N: Names<E>> Play<(), View<E, I::Terms>> for Note<I, N> {
    ghost use Rattle.std.specs.Prelude.{◌≡◌};
    ghost use Rattle.pf_board.specs.Told.{Noted};

    ghost then = { λ st m n m'. Noted I.legal I.quanta N.entry m.0 n m'.0 × (m'.1 ≡ m.1) };
}

/// A pass loads the history's length, and lists the load.
pub struct Look<I> {
    marker: PhantomData<I>,
}

impl<E, I: Issues<E>> Play<(), View<E, I::Terms>> for Look<I> {
    ghost use Rattle.std.specs.Prelude.{◌≡◌};
    ghost use Rattle.pf_board.specs.Told.{Looked};

    ghost then = { λ st m n m'. Looked I.legal I.quanta m.0 n m'.0 × (m'.1 ≡ m.1) };
}

/// A seat loads the history's length after views were joined, and lists nothing.
pub struct Settle<I> {
    marker: PhantomData<I>,
}

impl<E, I: Issues<E>> Play<(), View<E, I::Terms>> for Settle<I> {
    ghost use Rattle.std.specs.Prelude.{◌≡◌};
    ghost use Rattle.pf_board.specs.Told.{Settled};

    ghost then = { λ st m n m'. Settled I.legal I.quanta m.0 n m'.0 × (m'.1 ≡ m.1) };
}

/// A pass loads a processor's word.
pub struct Peek;

impl<E, T> Play<(), View<E, T>> for Peek {
    ghost use Rattle.std.specs.Prelude.{◌≡◌, ◌+◌, ℕ};
    ghost use Rattle.pf_board.specs.Told.{Peeked};

    ghost then = { λ st m n m'. ((p : ℕ) → st.word ≡ p + 1 → Peeked p m.0 n m'.0) × (m'.1 ≡ m.1) };
}

/// The keeper loads a processor's word.
pub struct Check;

impl<E, T> Play<(), View<E, T>> for Check {
    ghost use Rattle.std.specs.Prelude.{◌≡◌, ◌+◌, ℕ};
    ghost use Rattle.pf_board.specs.Told.{Checked};

    ghost then = { λ st m n m'. ((p : ℕ) → st.word ≡ p + 1 → Checked p m.0 n m'.0) × (m'.1 ≡ m.1) };
}

/// The keeper stores a quantum's word on its processor's.
pub struct Issue;

impl<E, T> Play<(), View<E, T>> for Issue {
    ghost use Rattle.std.specs.Prelude.{◌≡◌, ◌+◌, ℕ};
    ghost use Rattle.pf_board.specs.Told.{Put};
    ghost use Rattle.pf_board.specs.Words.{quantum_at};

    ghost then = { λ st m n m'. ((p : ℕ) → st.word ≡ p + 1 → Put (quantum_at p st.first) m.0 m'.0) × (m'.1 ≡ m.1) };
}

/// A pass exchanges a processor's word for 0.
pub struct Grab;

impl<E, T> Play<(), View<E, T>> for Grab {
    ghost use Rattle.std.specs.Prelude.{◌≡◌, ◌+◌, ℕ};
    ghost use Rattle.pf_board.specs.Told.{Taken};

    ghost then = { λ st m n m'. ((p : ℕ) → st.word ≡ p + 1 → Taken p st.first m.0 n m'.0) × (m'.1 ≡ m.1) };
}
