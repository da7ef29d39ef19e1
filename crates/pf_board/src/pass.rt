ghost use Rattle.std.specs.Prelude.{◌≡◌};
ghost use Rattle.pf_board.specs.Passes.{IsFront};

use crate::issues::Issues;
use crate::rule::BoardSeat;
use std::marker::{Model, PhantomData};

/// A caller's seat at the board. It is dropped only through `Board::close`, or what it took is in no account.
#[derive(Drop)]
pub struct Pass<E, I: Issues<E>> {
    pub(crate) seat: BoardSeat<E, I::Terms>,
    pub(crate) number: u32,
    pub(crate) of: PhantomData<I>,
}

impl<E, I: Issues<E>> Model for Pass<E, I> {
    ghost use Rattle.std.specs.Prelude.{◌≡◌, []};
    ghost use Rattle.pf_board.specs.Passes.{Passing};
    ghost use Rattle.pf_board.specs.Views.{passing};
    ghost use Rattle.pf_board.specs.Seats.{IsPass};

    ghost Value = { Passing E I.Terms };

    ghost view = { λ p. passing p.seat.table_id p.seat.me.0 };

    ghost invariant = { λ p. IsPass I.legal p.seat.me.0 × (p.seat.me.1 ≡ []) × (p.number ≡ p.seat.me.0.me) };
}

impl<E, I: Issues<E>> Pass<E, I> {
    /// Its number: the passes of a board are numbered from 0.
    pub fn me(&self) -> u32
        ensures number { result ≡ self.now.me }
        ensures front { IsFront I.legal self.now }
    {
        self.number
    }
}
