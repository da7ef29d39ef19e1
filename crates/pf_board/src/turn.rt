use crate::issues::Issues;
use crate::rule::BoardSeat;
use std::marker::{Model, PhantomData};

/// Permission to append one entry: a one-shot token.
#[derive(Drop)]
pub struct Turn<E, I: Issues<E>> {
    pub(crate) seat: BoardSeat<E, I::Terms>,
    pub(crate) of: PhantomData<I>,
}

impl<E, I: Issues<E>> Model for Turn<E, I> {
    ghost use Rattle.std.specs.Prelude.{◌≡◌, []};
    ghost use Rattle.pf_board.specs.Passes.{Turning};
    ghost use Rattle.pf_board.specs.Views.{turning};
    ghost use Rattle.pf_board.specs.Seats.{IsTurn};

    ghost Value = { Turning E };

    ghost view = { λ t. turning t.seat.table_id t.seat.me.0 };

    ghost invariant = { λ t. IsTurn t.seat.me.0 × (t.seat.me.1 ≡ []) };
}
