ghost use Rattle.std.specs.Prelude.{◌≡◌, IfSome};

use crate::raw_box::RawBox;
use counted_slot::{Counted, FREE, Fits, MARKED, TAKEN};
use std::alloc::Global;
use std::marker::Model;

/// A room with a value that one caller at a time takes out. Contracts see its tag, which each value that comes out fits.
#[derive(Drop)]
pub struct Room<X: Fits + Drop> {
    slot: Counted<Option<RawBox<X, Global>>>,
}

impl<X: Fits + Drop> Model for Room<X> {
    ghost Value = { X.Tag };

    ghost view = { λ r. r.slot };
}

impl<X: Fits + Drop> Room<X> {
    /// A room with this value, and with this tag.
    pub fn new(value: Box<X>, tag: &X::Tag) -> Room<X>
        requires { X.fits tag.now value.value }
        ensures { result ≡ tag.now }
    {
        Room {
            slot: Counted::new(Some(RawBox::of(value)), tag),
        }
    }

    /// Takes the value out. None where another caller has it.
    pub fn enter(&self) -> Option<Box<X>>
        ensures { IfSome result (λ b. X.fits self.now b.value) }
    {
        let (found, claim) = self.slot.turn(FREE, TAKEN);
        if found != FREE {
            claim.done();
            return None;
        }
        match claim.put(None, MARKED) {
            None => None,
            Some(value) => Some(value.into_box()),
        }
    }

    /// Puts the value back, which the caller had taken out. In a room that has a value it changes nothing.
    pub fn leave(&self, value: Box<X>)
        requires { X.fits self.now value.value }
    {
        let (found, claim) = self.slot.turn(MARKED, TAKEN);
        if found != MARKED {
            claim.done();
            return;
        }
        drop(claim.put(Some(RawBox::of(value)), FREE));
    }
}
