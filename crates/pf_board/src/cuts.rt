//! How seats are split and joined.
use crate::view::View;
use atomic_table::{Join, Split};

/// A seat hands the turn to a new one, or takes it from another.
pub struct PassTurn;

impl<E, T> Split<View<E, T>> for PassTurn {
    ghost use Rattle.pf_board.specs.Views.{without_turn, turn_of};

    ghost left = { without_turn };

    ghost right = { turn_of };
}

impl<E, T> Join<View<E, T>> for PassTurn {
    ghost use Rattle.pf_board.specs.Views.{with_turn, spent};

    ghost both = { with_turn };

    ghost spent = { spent };
}

/// The seat with the turn makes a pass.
pub struct Another;

impl<E, T> Split<View<E, T>> for Another {
    ghost use Rattle.pf_board.specs.Views.{maker, made_pass};

    ghost left = { maker };

    ghost right = { made_pass };
}

/// A pass lends its hand to a new seat, or gets it back.
pub struct Lend;

impl<E, T> Split<View<E, T>> for Lend {
    ghost use Rattle.pf_board.specs.Views.{without_hand, carrier_of};

    ghost left = { without_hand };

    ghost right = { carrier_of };
}

impl<E, T> Join<View<E, T>> for Lend {
    ghost use Rattle.pf_board.specs.Views.{with_hand, spent};

    ghost both = { with_hand };

    ghost spent = { spent };
}

/// A seat hands what its loads found to a new one, or lists what another's found after its own.
pub struct Report;

impl<E, T> Split<View<E, T>> for Report {
    ghost use Rattle.pf_board.specs.Views.{without_loads, loads_of};

    ghost left = { without_loads };

    ghost right = { loads_of };
}

impl<E, T> Join<View<E, T>> for Report {
    ghost use Rattle.pf_board.specs.Views.{with_loads, spent};

    ghost both = { with_loads };

    ghost spent = { spent };
}

/// A seat gives the hands that it carries to a new one, or takes those of another.
pub struct Host;

impl<E, T> Split<View<E, T>> for Host {
    ghost use Rattle.pf_board.specs.Views.{without_guests, guests_of};

    ghost left = { without_guests };

    ghost right = { guests_of };
}

impl<E, T> Join<View<E, T>> for Host {
    ghost use Rattle.pf_board.specs.Views.{hosting, spent};

    ghost both = { hosting };

    ghost spent = { spent };
}
