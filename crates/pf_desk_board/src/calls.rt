//! Boards of desks.
use pf_board::board::Board;
use pf_board::issues::Issues;
use pf_board::keeper::Keeper;
use pf_board::pass::Pass;
use pf_desk::entry::Entry;
use pf_scenario::settings::Settings;

/// What a desk's entries mean to a board: a history is legal where each reply is the desk machine's, and each entry is
/// noted by the pass of its caller's number. A step issues the quanta of its row.
pub struct Calls;

impl Issues<Entry> for Calls {
    ghost use Rattle.std.specs.Prelude.{refl};
    ghost use Rattle.pf_desk_board.specs.Histories.{IsHistory, quanta_of, asks_step};

    type Terms = Settings;

    ghost quanta = { quanta_of };

    ghost steps = { asks_step };

    ghost legal = { IsHistory };

    ghost opens = { λ settings. record { is_legal = tt; callers = refl } };
}

/// The board of a desk.
pub type DeskBoard = Board<Entry, Calls>;

/// The keeper of a desk's board.
pub type DeskKeeper = Keeper<Entry, Calls>;

/// A caller's pass of a desk.
pub type DeskPass = Pass<Entry, Calls>;
