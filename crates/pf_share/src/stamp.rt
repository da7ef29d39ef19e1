ghost use Rattle.std.specs.Prelude.{◌≡◌, IsTrue};

use crate::story::Story;
use crate::story_rule::StoryRule;
use logbook::Seen;
use std::marker::Model;

/// A number that names a history. Contracts see the history, its settings, and the book of the number.
#[derive(Drop)]
pub struct Stamp {
    pub(crate) number: u64,
    pub(crate) seen: Seen<Story, u64, StoryRule>,
}

impl Model for Stamp {
    ghost use Rattle.std.specs.Prelude.{◌<◌, length};
    ghost use Rattle.pf_share.specs.Stories.{Stamped, stamped};

    ghost Value = { Stamped };

    ghost view = { λ s. stamped s.seen.book s.seen.log s.number };

    ghost invariant = { λ s. s.number < length s.seen.log };
}

impl Stamp {
    /// A copy.
    pub fn again(&self) -> Stamp
        ensures { result ≡ self.now }
    {
        Stamp {
            number: self.number,
            seen: self.seen.again(),
        }
    }

    /// Whether the numbers, of one book, are equal: then so are the histories.
    pub fn is(&self, other: &Stamp) -> bool
        requires { self.now.origin.book ≡ other.now.origin.book }
        ensures { IsTrue result → self.now ≡ other.now }
    {
        let mut both = self.seen.again();
        both.learn(&other.seen);
        self.number == other.number
    }
}
