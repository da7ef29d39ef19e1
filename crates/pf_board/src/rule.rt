//! The rule of the board's table, and its types.
use crate::charter::Charter;
use crate::issues::Issues;
use crate::view::View;
use atomic_table::{Seat, Table, TableRule};
use std::alloc::Global;
use std::marker::PhantomData;

/// Word 0 is the length of the history, word 1 + p is processor p's.
pub struct Rule<E, I> {
    marker: PhantomData<(E, I)>,
}

impl<E, I: Issues<E>> TableRule<(), View<E, I::Terms>, Charter<I::Terms>> for Rule<E, I> {
    ghost use Rattle.pf_board.specs.Kept.{Kept};
    ghost use Rattle.pf_board.specs.Views.{opening};

    ghost holds = { λ charter s. Kept I.quanta I.steps I.legal charter s.words s.views };

    ghost first = { opening };
}

/// A place at the table.
pub type BoardSeat<E, T> = Seat<(), View<E, T>>;

/// The words that passes share.
pub type BoardTable<E, I, T> = Table<(), View<E, T>, Charter<T>, Rule<E, I>, Global>;
