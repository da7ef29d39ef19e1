use pf_place::row_view::RowView;
use pf_why::seat::{Seat, seat_in};
use pf_why::subtask::Subtask;

/// Who sits where in a slot and in the slot before, if there is one.
#[derive(Clone, Copy)]
pub struct Seating<'a> {
    /// The slot.
    pub slot: u64,
    /// How many processors are in use in it.
    pub count: u64,
    /// How many there are.
    pub processors: u32,
    /// The row of the slot.
    pub row: RowView<'a>,
    /// That of the slot before.
    pub before: Option<RowView<'a>>,
}

impl<'a> Seating<'a> {
    ghost use Rattle.std.specs.Prelude.{◌≡◌};
    ghost use Rattle.pf_why_text.specs.Ranks.{IsSeating, last_that_runs, seat_in_slot, seating_of};

    /// The last of a ranking that runs, where there are that many.
    pub fn last_of(self, ranking: &[Subtask]) -> Option<Subtask>
        ensures { result ≡ last_that_runs (seating_of self.entry) ranking.now }
    {
        let last = self.count.saturating_sub(1);
        ranking.get(last as usize).copied()
    }

    /// Where a subtask runs, and why there.
    pub fn seat(self, x: Subtask) -> Option<Seat>
        requires { IsSeating self }
        ensures { result ≡ seat_in_slot (seating_of self.entry) x }
    {
        seat_in(self.row, self.before, self.processors, self.count, x.task)
    }
}
