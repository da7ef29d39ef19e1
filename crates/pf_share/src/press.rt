ghost use Rattle.std.specs.Prelude.{◌≡◌, IfSome};
ghost use Rattle.pf_share.specs.Stories.{stamp_of};

use crate::stamp::Stamp;
use crate::story::Story;
use crate::story_rule::{Add, Asks, NoGain, StoryRule};
use crate::tells::Tells;
use logbook::{Offer, Seen, Start, Word};
use std::marker::Model;

/// Gives numbers to histories, none twice. Contracts see its book.
#[derive(Drop)]
pub struct Press {
    head: Word<Story, u64, StoryRule>,
    seen: Seen<Story, u64, StoryRule>,
    made: u64,
}

impl Model for Press {
    ghost use Rattle.std.specs.Prelude.{◌≡◌, length};
    ghost use Rattle.logbook.specs.Pages.{Book};
    ghost use Rattle.pf_share.specs.Stories.{head_of};

    ghost Value = { Book };

    ghost view = { λ s. s.seen.book };

    ghost invariant = { λ s. (s.head ≡ head_of s.seen.book) × (s.made ≡ length s.seen.log) };
}

impl Press {
    /// A press with a book of its own, which has no history yet.
    pub fn new() -> Press {
        let (seen, mut first, _second) = Seen::open(Start::alone(), 0, 0);
        Press {
            head: Word::tracked(0, &mut first),
            seen,
            made: 0,
        }
    }

    /// A number for the history that a value tells. `None` where the numbers are spent.
    pub fn stamp<X, M: Tells<X>>(&mut self, about: &X) -> Option<Stamp>
        ensures stamp { IfSome result (λ s. s ≡ stamp_of self.old (M.story about.now)) }
        ensures same { self.new ≡ self.old }
    {
        let made = self.made;
        if made == u64::MAX {
            return None;
        }
        let mut offer: Offer<Story, u64, StoryRule, NoGain> = self
            .seen
            .plain::<NoGain, X, Asks<M>>(about);
        let mut pen = self.seen.no_pen();
        let found = self
            .head
            .compare_exchange::<Add, NoGain>(made, made + 1, &mut self.seen, &mut offer, &mut pen);
        // No other press writes this book, so another number is never found.
        if found != made {
            self.made = found;
            return None;
        }
        self.made = made + 1;
        Some(Stamp {
            number: made,
            seen: self.seen.again(),
        })
    }
}
