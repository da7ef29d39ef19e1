ghost use Rattle.std.specs.Prelude.{◌≡◌, ◌<◌, true, [], ◌∷◌, ◌++◌, length, All, AllPairs, OnOk, OnErr};
ghost use Rattle.std.specs.Option.{option_map};
ghost use Rattle.pf_scenario.specs.Scenario.{with_number, is_held, events_without};
ghost use Rattle.pf_scenario.specs.Index.{event_at, with_event};
ghost use Rattle.pf_scenario.specs.Cards.{AreRising, AreBelow, AreBehind, IsCut, IsPlaceOf, IsSmall, listed};

use crate::card::Card;
use crate::event::{Event, Numbered};
use crate::events::Events;
use crate::found::Found;
use crate::guide::Guide;
use std::alloc::{AllocError, Global};
use std::marker::Model;

/// Events by number. It takes the memory of the events held, and of no more that are struck, and eight bytes for each 32 numbers
/// that were given. A search looks at two cards where it knows the place, or its guess is good, as it is while numbers rise, and
/// at the logarithm of their number where it is not. A change costs as much in the mean.
#[derive(Debug, Drop)]
pub struct ByNumber {
    /// In rising order of their numbers. No more than half of them are struck.
    cards: Vec<Card>,

    /// How many cards are not struck.
    held: usize,
    guide: Guide,
}

impl Model for ByNumber {
    ghost use Rattle.std.specs.Prelude.{List};
    ghost use Rattle.pf_scenario.specs.Cards.{IsTable, listed};
    ghost use Rattle.pf_scenario.specs.declared.event.Numbered.{Numbered};

    ghost Value = { List Numbered };

    ghost view = { λ b. listed b.cards.items };

    ghost invariant = { λ b. IsTable b.cards.items b.held };
}

/// Where the card of this number is, if there is one. The guess is tried first.
fn place_of(cards: &[Card], guess: usize, id: u64) -> Option<usize>
    requires { AreRising cards.now }
    ensures { IsPlaceOf cards.now id result }
{
    if is_cut(cards, guess, id) {
        return place_at(cards, guess, id);
    }
    cards.binary_search_by_key(&id, |card| card.id()).ok()
}

/// Whether the cards before this place are below the number, and those from it on are not.
fn is_cut(cards: &[Card], at: usize, id: u64) -> bool
    requires { AreRising cards.now }
    ensures { result ≡ true → IsCut cards.now id at }
{
    if !are_below(cards, at, id) {
        return false;
    }
    are_behind(cards, at, id)
}

/// Whether the cards before this place are below the number.
fn are_below(cards: &[Card], at: usize, id: u64) -> bool
    requires { AreRising cards.now }
    ensures { result ≡ true → AreBelow cards.now id at }
{
    if at == 0 {
        return true;
    }
    match cards.get(at - 1) {
        Some(card) => card.id() < id,
        None => false,
    }
}

/// Whether the cards from this place on are not below the number.
fn are_behind(cards: &[Card], at: usize, id: u64) -> bool
    requires { AreRising cards.now }
    ensures { result ≡ true → AreBehind cards.now id at }
{
    match cards.get(at) {
        Some(card) => id <= card.id(),
        None => true,
    }
}

/// The place, where the card there is of this number.
fn place_at(cards: &[Card], at: usize, id: u64) -> Option<usize>
    requires rising { AreRising cards.now }
    requires cut { IsCut cards.now id at }
    ensures { IsPlaceOf cards.now id result }
{
    if cards.get(at)?.id() == id {
        Some(at)
    } else {
        None
    }
}

/// Drops the cards of this number and above. Those are struck, as no event has such a number.
fn truncate(cards: &mut Vec<Card>, id: u64)
    requires rising { AreRising cards.old.items }
    requires last { All (λ x. x.id < id) (listed cards.old.items) }
    ensures same { listed cards.new.items ≡ listed cards.old.items }
    ensures rising { AreRising cards.new.items }
    ensures below { All (λ card. card.id < id) cards.new.items }
{
    // Numbers rise, so where the last card is below there is none.
    if are_below(cards, cards.len(), id) {
        return;
    }
    let count = cards.partition_point(|card| card.id() < id);
    cards.truncate(count);
}

/// Drops the struck cards where they are more than half, and gives their memory back.
fn sweep(cards: &mut Vec<Card>, guide: &mut Guide, held: usize)
    requires { AreRising cards.old.items }
    ensures same { listed cards.new.items ≡ listed cards.old.items }
    ensures rising { AreRising cards.new.items }
{
    if cards.len() / 2 > held {
        cards.retain(|card| !card.is_struck());
        cards.shrink_to_fit();
        guide.renew(cards);
    }
}

impl ByNumber {
    /// No events.
    pub fn new(alloc: Global) -> Self
        ensures { result ≡ [] }
    {
        ByNumber {
            cards: Vec::new(alloc),
            held: 0,
            guide: Guide::new(alloc),
        }
    }

    /// How many events are held.
    pub fn len(&self) -> usize
        ensures value { result ≡ length self.now }
        ensures rising { AllPairs (λ x y. x.id < y.id) self.now }
    {
        self.held
    }

    /// Where the card of this number may stand. Nothing is promised of it.
    pub fn guess(&self, id: u64) -> usize {
        self.guide.guess(id)
    }

    /// The event of this number, where it is held, and where its card stands. It is looked for at `first` before it is searched
    /// for.
    pub fn find(&self, first: usize, id: u64) -> Option<Found>
        ensures { option_map (λ f. f.event) result ≡ event_at self.now id }
    {
        let at = place_of(&self.cards, first, id)?;
        let event = self.cards[at].event()?;
        Some(Found { event, at })
    }

    /// Holds an event whose number is above all others.
    ///
    /// # Errors
    ///
    /// Where memory is refused: the events are as before.
    pub fn push(&mut self, x: Numbered) -> Result<(), AllocError>
        requires last { All (λ y. y.id < x.id) self.old }
        requires small { IsSmall x }
        ensures ok { OnOk result (self.new ≡ self.old ++ x ∷ []) }
        ensures err { OnErr result (self.new ≡ self.old) }
    {
        truncate(&mut self.cards, x.id);
        self.guide.note(x.id, self.cards.len())?;
        self.cards.push(Card::of(x))?;
        self.held += 1;
        Ok(())
    }

    /// Puts the event in place of the one of this number, which is held and looked for at `first`.
    pub fn set(&mut self, first: usize, id: u64, event: Event)
        requires held { is_held self.old id ≡ true }
        requires small { IsSmall (with_number id event) }
        ensures { self.new ≡ with_event id event self.old }
    {
        let Some(at) = place_of(&self.cards, first, id) else {
            unreachable!()
        };
        self.cards[at] = Card::of(Numbered { id, event });
    }

    /// Takes the event of this number out, which is looked for at `first`. It takes no memory.
    pub fn take_out(&mut self, first: usize, id: u64)
        ensures { self.new ≡ events_without id self.old }
    {
        let Some(at) = place_of(&self.cards, first, id) else {
            return;
        };
        if self.cards[at].is_struck() {
            return;
        }
        self.cards[at].strike();
        self.held -= 1;
        sweep(&mut self.cards, &mut self.guide, self.held);
    }

    /// The events.
    pub fn iter(&self) -> Events<'_>
        ensures { result ≡ self.now }
    {
        Events::of(&self.cards)
    }
}

impl Clone for ByNumber {
    ghost is_clone = { λ b copy. copy ≡ b };

    fn clone(&self) -> Result<Self, AllocError> {
        let cards = self.cards.clone()?;
        let guide = self.guide.clone()?;
        Ok(ByNumber {
            cards,
            held: self.held,
            guide,
        })
    }
}
