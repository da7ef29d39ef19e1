use std::marker::Brand;

/// Which board it is, with its settings, and which book of histories. A call that opens a desk picks it, since what is
/// known of a locked value is known by its type alone.
pub trait Naming {
    ghost use Rattle.logbook.specs.Pages.{Book};
    ghost use Rattle.pf_scenario.specs.System.{System};
    ghost use Rattle.pf_board.specs.Passes.{Boarding};

    ghost board: { Boarding System };

    ghost book: { Book };
}

impl Naming for Brand {
    ghost use Rattle.std.specs.Prelude.{[]};

    ghost board = { record { id = record { words = 0; slots = 0; views_name = 0; atom = 0; block = 0; offset = 0; slot_names = [] }; terms = record { processors = 0; base = 0; cap = 0; horizon = 0 }; processors = 0; passes = 0 } };

    ghost book = { record { number = 0; log_name = 0; cells_name = 0 } };
}
