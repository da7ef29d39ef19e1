ghost use Rattle.std.specs.Prelude.{◌≡◌, ◌++◌, ℕ, List, IfOk, OnOk};
ghost use Rattle.pf_text.specs.Pieces.{TakesPiece};

use std::alloc::{AllocError, Global};
use std::marker::Model;
use std::mem;

/// A piece is ended where it has as many bytes: 64 KiB.
pub const LONG_PIECE: usize = 65_536;

/// A text that is handed out in pieces, from its front to its end. No piece is empty. Where a call fails, no more may be
/// asked for.
///
/// Where more than the text comes of it, as the state of a machine that makes the text on its way, this is its outcome: it
/// is settled from the start, and each piece leaves it as it is. So who has taken all pieces finds there what was promised
/// before the first.
pub trait Pieces {
    // the text that is left
    ghost left: { Self → List ℕ };

    // what comes of it beside the text
    ghost Outcome: { Type 0 } = { Unit {0} };

    ghost outcome: { Self → Self.Outcome };

    /// The next piece, or none where no text is left.
    ///
    /// # Errors
    ///
    /// Where memory is refused.
    fn next_piece(&mut self, alloc: Global) -> Result<Option<Vec<u8>>, AllocError>
        ensures text { IfOk result (λ piece. TakesPiece piece (left self.old) (left self.new)) }
        ensures kept { OnOk result (Self.outcome self.new ≡ Self.outcome self.old) };
}

/// A text that is one piece, or none where it is empty.
#[derive(Drop)]
pub struct Whole {
    text: Vec<u8>,
}

impl Model for Whole {
    ghost use Rattle.std.specs.Prelude.{ℕ, List};

    ghost Value = { List ℕ };

    ghost view = { λ w. w.text.items };
}

impl Whole {
    /// The pieces of a text that is there.
    pub fn new(text: Vec<u8>) -> Self
        ensures { result ≡ text.items }
    {
        Whole { text }
    }
}

impl Pieces for Whole {
    ghost left = { λ w. w };

    ghost outcome = { λ _. tt };

    fn next_piece(&mut self, alloc: Global) -> Result<Option<Vec<u8>>, AllocError> {
        if self.text.is_empty() {
            return Ok(None);
        }
        Ok(Some(mem::replace(&mut self.text, Vec::new(alloc))))
    }
}

/// One text after another.
#[derive(Drop)]
pub struct Chain<A: Pieces, B: Pieces> {
    first: A,
    second: B,
}

impl<A: Pieces, B: Pieces> Model for Chain<A, B> {
    ghost use Rattle.std.specs.Prelude.{ℕ, List, ◌++◌};

    ghost Value = { List ℕ };

    ghost view = { λ c. A.left c.first ++ B.left c.second };
}

impl<A: Pieces, B: Pieces> Chain<A, B> {
    /// The pieces of the first text, and then those of the second.
    pub fn new(first: A, second: B) -> Self
        ensures { result ≡ A.left first ++ B.left second }
    {
        Chain { first, second }
    }
}

impl<A: Pieces, B: Pieces> Pieces for Chain<A, B> {
    ghost left = { λ c. c };

    ghost outcome = { λ _. tt };

    fn next_piece(&mut self, alloc: Global) -> Result<Option<Vec<u8>>, AllocError> {
        match self.first.next_piece(alloc)? {
            Some(piece) => Ok(Some(piece)),
            None => self.second.next_piece(alloc),
        }
    }
}

/// The text of some pieces, in whole.
///
/// # Errors
///
/// Where memory is refused.
pub fn gathered<P: Pieces + Drop>(alloc: Global, mut pieces: P) -> Result<Vec<u8>, AllocError>
    ensures { IfOk result (λ text. text.items ≡ P.left pieces) }
{
    let mut text = Vec::new(alloc);
    'pieces: while let Some(piece) = pieces.next_piece(alloc)? {
        text.extend_from_slice(&piece)?;
    }
    Ok(text)
}
