ghost use Rattle.std.specs.Prelude.{◌≡◌, ◌≤◌, ◌<◌, ◌^◌};
ghost use Rattle.pf_vocabulary.specs.declared.look.style.Style.{Style};
ghost use Rattle.pf_picture.specs.Lane.{IsLane, events_level, first_row, first_shown, last_shown, level_of, stairs_end, stop_height};

use crate::scale::Scale;
use pf_vocabulary::look::style::Style;

/// Where an admitted task lies in a block of a picture, and when it is inside.
#[derive(Clone, Copy)]
pub struct Lane {
    /// How the block is measured.
    pub scale: Scale,
    /// Where its part begins.
    pub top: u128,
    /// How many of its windows have a row in stairs.
    pub rows: u64,
    /// Its place among the tasks shown, from 0.
    pub place: u64,
    /// The slot of its join.
    pub joined: u64,
    /// The slot of its leave, or how many slots there are.
    pub end: u64,
    /// By how many slots its subtasks may run before their release.
    pub early: u64,
}

impl Lane {
    /// Where the window of subtask i begins in a strip.
    pub(crate) fn level(&self, i: u64) -> u128
        requires { IsLane self.now }
        ensures value { result ≡ level_of self.now i }
        ensures short { result ≤ 2 ^ 101 }
    {
        self.top + 2 + 14 * u128::from(i.saturating_sub(1) % 2)
    }

    /// Where the first row of stairs begins.
    pub(crate) fn first_row(&self) -> u128
        requires { IsLane self.now }
        ensures value { result ≡ first_row self.now }
        ensures some { 20 ≤ result }
        ensures short { result ≤ 2 ^ 101 }
    {
        self.top + 20
    }

    /// Where stairs end.
    pub(crate) fn stairs_end(&self) -> u128
        requires { IsLane self.now }
        ensures { result ≡ stairs_end self.now }
    {
        self.top + 20 + 14 * u128::from(self.rows)
    }

    /// How high a stop of the task's clock is drawn.
    pub(crate) fn stop_height(&self) -> u128
        requires { IsLane self.now }
        ensures { result ≡ stop_height self.now.scale.style self.now.rows }
    {
        match self.scale.style() {
            Style::Strips => 64,
            Style::Stairs => 20 + 14 * u128::from(self.rows),
        }
    }

    /// The first slot in which it is inside and shown.
    pub(crate) fn first_shown(&self) -> u64
        ensures { result ≡ first_shown self.now }
    {
        self.joined.max(self.scale.from())
    }

    /// The slot at which those in which it is inside and shown end.
    pub(crate) fn last_shown(&self) -> u64
        ensures value { result ≡ last_shown self.now }
        ensures early { result ≤ 2 ^ 22 }
    {
        self.end.min(self.scale.to())
    }
}

/// Where joins, leaves and denied events are drawn of a part that begins at `top`.
pub(crate) fn events_level(style: Style, top: u128) -> u128
    requires { top ≤ 2 ^ 100 }
    ensures value { result ≡ events_level style top }
    ensures short { result ≤ 2 ^ 101 }
{
    match style {
        Style::Strips => top + 29,
        Style::Stairs => top + 6,
    }
}
