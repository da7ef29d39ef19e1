ghost use Rattle.std.specs.Prelude.{◌≡◌, ◌++◌, ◌<◌, ◌≤◌, ℕ, List, IfOk, OnOk};
ghost use Rattle.pf_trace.specs.Books.{IsFilled};

use pf_text::pieces::{LONG_PIECE, Pieces};
use std::alloc::{AllocError, Global};
use std::marker::Model;

/// A text in chapters, each of which has places with some of the text.
pub trait Book {
    // how many chapters there are
    ghost chapters: { Self → ℕ };

    // how many places a chapter has
    ghost places: { Self → ℕ → ℕ };

    // the text of a place of a chapter
    ghost place: { Self → ℕ → ℕ → List ℕ };

    /// How many chapters there are.
    fn chapters(&self) -> u64
        ensures { result ≡ chapters self.now };

    /// How many places a chapter has.
    fn places(&self, chapter: u64) -> u64
        requires { chapter < chapters self.now }
        ensures { result ≡ places self.now chapter };

    /// Adds the text of a place of a chapter.
    ///
    /// # Errors
    ///
    /// Where memory is refused: the text is given up.
    fn push_place(&self, text: &mut Vec<u8>, chapter: u64, at: u64) -> Result<(), AllocError>
        requires among { chapter < chapters self.now }
        requires within { at < places self.now chapter }
        ensures { OnOk result (text.new.items ≡ text.old.items ++ place self.now chapter at) };
}

/// Adds the places of a chapter from one on, until the text is long. The answer is the place that it came to.
fn fill<B: Book>(text: &mut Vec<u8>, book: &B, chapter: u64, from: u64) -> Result<u64, AllocError>
    requires among { chapter < B.chapters book.now }
    requires within { from ≤ B.places book.now chapter }
    ensures { IfOk result (λ to. IsFilled (B.places book.now chapter) (B.place book.now chapter) from to text.old.items text.new.items) }
{
    let count = book.places(chapter);
    for at in from..count {
        if text.len() >= LONG_PIECE {
            return Ok(at);
        }
        book.push_place(text, chapter, at)?;
    }
    Ok(count)
}

/// The text of a book: each piece has as many places as make it long.
#[derive(Drop)]
pub struct BookPieces<B: Book> {
    book: B,
    /// The chapter that is next.
    next: u64,
    /// How many of its places were passed.
    at: u64,
}

impl<B: Book> Model for BookPieces<B> {
    ghost use Rattle.std.specs.Prelude.{ℕ, List, ◌≤◌};
    ghost use Rattle.pf_trace.specs.Books.{IsWithinChapter, text_behind};

    ghost Value = { List ℕ };

    ghost view = { λ p. text_behind (B.chapters p.book) (B.places p.book) (B.place p.book) p.next p.at };

    ghost invariant = { λ p. IsWithinChapter (B.chapters p.book) (B.places p.book) p.next p.at };
}

impl<B: Book> BookPieces<B> {
    ghost use Rattle.pf_trace.specs.Books.{book_text};

    /// The pieces of the whole text.
    pub fn new(book: B) -> Self
        ensures { result ≡ book_text (B.chapters book) (B.places book) (B.place book) }
    {
        BookPieces {
            book,
            next: 0,
            at: 0,
        }
    }
}

impl<B: Book> Pieces for BookPieces<B> {
    ghost left = { λ p. p };

    ghost outcome = { λ _. tt };

    fn next_piece(&mut self, alloc: Global) -> Result<Option<Vec<u8>>, AllocError> {
        let mut text = Vec::new(alloc);
        let mut from = self.at;
        let count = self.book.chapters();
        for next in self.next..count {
            let to = fill(&mut text, &self.book, next, from)?;
            if to < self.book.places(next) {
                self.next = next;
                self.at = to;
                return Ok(Some(text));
            }
            from = 0;
        }
        self.next = count;
        self.at = 0;
        if text.is_empty() {
            return Ok(None);
        }
        Ok(Some(text))
    }
}
