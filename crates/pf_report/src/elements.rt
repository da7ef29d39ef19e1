ghost use Rattle.std.specs.Prelude.{◌≡◌, ◌∷◌, ◌++◌, ◌<◌, ◌≤◌, ◌+◌, ℕ, List, [], false, length, IfOk, OnOk};
ghost use Rattle.serde_json.specs.Data.{Data, array};
ghost use Rattle.serde_json.specs.View.{items_of, view};
ghost use Rattle.serde_json.specs.Written.{compact_text, has_float};
ghost use Rattle.pf_report.specs.Parts.{elements_text};

use pf_text::pieces::{LONG_PIECE, Pieces};
use serde_json::Value;
use std::alloc::{AllocError, Global};
use std::marker::Model;

/// The elements of an array. None has a float.
pub trait Elements {
    // how many there are
    ghost count: { Self → ℕ };

    // those from a place on
    ghost rest: { Self → ℕ → List Data };

    /// How many there are.
    fn count(&self) -> u64
        ensures value { result ≡ count self.now }
        ensures end { rest self.now result ≡ [] };

    /// The element at a place.
    ///
    /// # Errors
    ///
    /// Where memory is refused.
    fn element(&self, alloc: Global, at: u64) -> Result<Value, AllocError>
        requires within { at < count self.now }
        ensures first { IfOk result (λ v. rest self.now at ≡ view v ∷ rest self.now (at + 1)) }
        ensures plain { IfOk result (λ v. has_float (view v) ≡ false) };
}

/// Adds the element at a place to a piece, after a comma where it is not the first.
fn push_element<E: Elements>(
    alloc: Global,
    piece: &mut Vec<u8>,
    elements: &E,
    at: u64,
) -> Result<(), AllocError>
    requires within { at < E.count elements.now }
    ensures text { OnOk result (piece.old.items ++ elements_text at (E.rest elements.now at)
        ≡ piece.new.items ++ elements_text (at + 1) (E.rest elements.now (at + 1))) }
    ensures long { OnOk result (length piece.old.items ≤ length piece.new.items) }
    ensures some { OnOk result (0 < at → 0 < length piece.new.items) }
{
    if at > 0 {
        piece.push(b',')?;
    }
    let text = elements.element(alloc, at)?.to_vec(alloc)?;
    piece.extend_from_slice(&text)
}

/// The text of an array: each piece has as many elements as make it long.
#[derive(Drop)]
pub struct ArrayPieces<E: Elements> {
    elements: E,
    /// How many of them were handed out.
    at: u64,
    /// Whether the array's end was handed out.
    closed: bool,
}

impl<E: Elements> Model for ArrayPieces<E> {
    ghost use Rattle.std.specs.Prelude.{ℕ, List, ◌≤◌};
    ghost use Rattle.pf_report.specs.Parts.{array_left};

    ghost Value = { List ℕ };

    ghost view = { λ p. array_left p.closed p.at (E.rest p.elements p.at) };

    ghost invariant = { λ p. p.at ≤ E.count p.elements };
}

impl<E: Elements> ArrayPieces<E> {
    /// The pieces of the whole array.
    pub fn new(elements: E) -> Self
        ensures { result ≡ compact_text (array (items_of (E.rest elements 0))) }
    {
        ArrayPieces {
            elements,
            at: 0,
            closed: false,
        }
    }
}

impl<E: Elements> Pieces for ArrayPieces<E> {
    ghost left = { λ p. p };

    ghost outcome = { λ _. tt };

    fn next_piece(&mut self, alloc: Global) -> Result<Option<Vec<u8>>, AllocError> {
        if self.closed {
            return Ok(None);
        }
        let count = self.elements.count();
        let mut piece = Vec::with_capacity(alloc, LONG_PIECE)?;
        let mut at = self.at;
        if at == 0 {
            piece.push(b'[')?;
        }
        while at < count && (at == self.at || piece.len() < LONG_PIECE) {
            push_element(alloc, &mut piece, &self.elements, at)?;
            at += 1;
        }
        if at == count {
            piece.push(b']')?;
            self.closed = true;
        }
        self.at = at;
        Ok(Some(piece))
    }
}
