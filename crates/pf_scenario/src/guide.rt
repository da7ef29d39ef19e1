use crate::card::Card;
use std::alloc::{AllocError, Global};

/// How many numbers share a mask: as many as it has bits.
const SHARING: usize = 32;

/// Which of 32 numbers have a card.
#[derive(Clone, Copy, Debug)]
struct Marks {
    /// The place of the first of these cards, or where it would be.
    first: u32,

    /// A bit for each number, the lowest for the least.
    marked: u32,
}

/// Guesses of where the cards of a table of events by number stand, so that a search looks at few of them. They take eight bytes
/// for each 32 numbers. Nothing is promised of a guess: a search tries it before it believes it.
#[derive(Clone, Debug, Drop)]
pub struct Guide {
    /// For each 32 numbers, from 0 on.
    marks: Vec<Marks>,
}

/// A place in four bytes. One that has no room there is a bad guess.
fn in_short(place: usize) -> u32 {
    u32::try_from(place).unwrap_or(u32::MAX)
}

/// The bit of a number.
fn bit_of(id: u64) -> u32 {
    1 << (id % SHARING as u64)
}

/// The bits of the lower numbers.
fn bits_below(id: u64) -> u32 {
    !(u32::MAX << (id % SHARING as u64))
}

/// The marks of the cards of numbers in a block, which begin at this place.
fn marks_of(cards: &[Card], at: usize, block: u64) -> Marks {
    let from = at.min(cards.len());
    let mut marked = 0;
    for card in &cards[from..] {
        if card.id() / SHARING as u64 != block {
            break;
        }
        marked |= bit_of(card.id());
    }
    Marks {
        first: in_short(at),
        marked,
    }
}

impl Guide {
    /// No guesses.
    pub fn new(alloc: Global) -> Self {
        Guide {
            marks: Vec::new(alloc),
        }
    }

    /// Where a card of this number may stand: after all cards, where no number as high was noted.
    pub fn guess(&self, id: u64) -> usize {
        match self.marks.get(id as usize / SHARING) {
            Some(marks) => {
                let below = marks.marked & bits_below(id);
                marks.first as usize + below.count_ones() as usize
            }
            None => usize::MAX,
        }
    }

    /// Notes that the card of this number, which is above all others, is to stand at the place.
    ///
    /// # Errors
    ///
    /// Where memory is refused.
    pub fn note(&mut self, id: u64, at: usize) -> Result<(), AllocError> {
        let block = id as usize / SHARING;
        if self.marks.len() <= block {
            let unmarked = Marks {
                first: in_short(at),
                marked: 0,
            };
            self.marks.resize(block + 1, unmarked)?;
        }
        if let Some(marks) = self.marks.get_mut(block) {
            marks.marked = (marks.marked & bits_below(id)) | bit_of(id);
        }
        Ok(())
    }

    /// Notes all anew, of cards whose places have changed. It takes no memory.
    pub fn renew(&mut self, cards: &[Card]) {
        let mut at = 0;
        for (k, marks) in self.marks.iter_mut().enumerate() {
            *marks = marks_of(cards, at, k as u64);
            at = at.saturating_add(marks.marked.count_ones() as usize);
        }
    }
}
