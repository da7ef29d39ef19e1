ghost use Rattle.std.specs.Prelude.{◌≡◌};
ghost use Rattle.std.specs.Iterator.{YieldsFirst, item_count};
ghost use Rattle.pf_scenario.specs.Cards.{listed};

use crate::card::Card;
use crate::event::Numbered;
use std::marker::Model;

/// The events that a scenario holds, in rising order of their numbers.
#[derive(Drop)]
pub struct Events<'a> {
    /// The cards that are left.
    cards: &'a [Card],
}

impl<'a> Model for Events<'a> {
    ghost use Rattle.std.specs.Prelude.{List};
    ghost use Rattle.pf_scenario.specs.Cards.{listed};
    ghost use Rattle.pf_scenario.specs.declared.event.Numbered.{Numbered};

    ghost Value = { List Numbered };

    ghost view = { λ e. listed e.cards.now };
}

impl<'a> Events<'a> {
    /// The events of the cards that are not struck.
    pub(crate) fn of(cards: &'a [Card]) -> Self
        ensures { result ≡ listed cards.now }
    {
        Events { cards }
    }
}

impl<'a> Iterator for Events<'a> {
    type Item = Numbered;

    ghost next_gives = { YieldsFirst (λ s. s) };

    ghost remaining = { item_count (λ s. s) };

    fn next(&mut self) -> Option<Numbered> {
        'cards: while let Some((card, rest)) = self.cards.split_first() {
            self.cards = rest;
            if let Some(numbered) = card.numbered() {
                return Some(numbered);
            }
        }
        None
    }
}
