use crate::issues::Issues;
use crate::rule::BoardSeat;
use std::marker::{Model, PhantomData};

/// Who has seen the whole history, and alone lets others enter into it. It stands under a lock of the caller's.
#[derive(Drop)]
pub struct Keeper<E, I: Issues<E>> {
    pub(crate) seat: BoardSeat<E, I::Terms>,
    pub(crate) of: PhantomData<I>,
}

impl<E, I: Issues<E>> Model for Keeper<E, I> {
    ghost use Rattle.std.specs.Prelude.{◌≡◌, []};
    ghost use Rattle.pf_board.specs.Passes.{Keeping};
    ghost use Rattle.pf_board.specs.Views.{keeping};
    ghost use Rattle.pf_board.specs.Seats.{IsKeeper};

    ghost Value = { Keeping E I.Terms };

    ghost view = { λ k. keeping k.seat.table_id k.seat.me.0 };

    ghost invariant = { λ k. IsKeeper I.legal k.seat.me.0 × (k.seat.me.1 ≡ []) };
}
