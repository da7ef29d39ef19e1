ghost use Rattle.std.specs.Prelude.{◌≡◌, ◌+◌, ◌<◌, ◌^◌, IfSome, IfOk, IfErr};

use crate::again::Again;
use crate::reading::{put, read};
use counted_slot::Counted;
use std::alloc::{AllocError, Global};
use std::marker::Model;
use std::sync::atomic::{AtomicU64, Ordering};

/// How often a reader looks before it says that it found nothing.
const MOST_TRIES: u32 = 1_000;

/// Places for values, one of which is shown to readers. A writer takes another, which nobody reads: there are two more places
/// than readers, each of whom is at one place at a time, so that a lone writer always finds one. Contracts see its tag,
/// which each value that is read fits.
#[derive(Drop)]
pub struct Shelf<X: Again + Drop> {
    tag: X::Tag,
    places: Vec<Counted<Option<X>>>,
    current: AtomicU64,
}

impl<X: Again + Drop> Model for Shelf<X> {
    ghost use Rattle.std.specs.Prelude.{◌≡◌, All};

    ghost Value = { X.Tag };

    ghost view = { λ s. s.tag };

    ghost invariant = { λ s. All (λ t. t ≡ s.tag) s.places.items };
}

impl<X: Again + Drop> Shelf<X>
where
    X::Tag: Drop,
{
    /// A shelf with nothing on it, for so many readers.
    ///
    /// # Errors
    ///
    /// Where memory is refused.
    pub fn new(alloc: Global, tag: X::Tag, readers: usize) -> Result<Shelf<X>, AllocError>
        requires { readers < 2 ^ 32 }
        ensures { IfOk result (λ s. s ≡ tag) }
    {
        let mut places = Vec::new(alloc);
        for _ in 0..readers + 2 {
            places.push(Counted::new(None, &tag))?;
        }
        Ok(Shelf {
            tag,
            places,
            current: AtomicU64::new(0),
        })
    }

    /// Shows this, in another place than what is shown now.
    ///
    /// # Errors
    ///
    /// Where somebody reads or writes at each other place: the value comes back.
    pub fn show(&self, value: X) -> Result<(), X>
        requires { X.fits self.now value }
        ensures { IfErr result (λ back. back ≡ value) }
    {
        let shown = self.current.load(Ordering::SeqCst);
        let mut value = value;
        for at in 0..self.places.len() {
            match self.put(shown, at, value) {
                Ok(()) => {
                    self.current.store(at as u64, Ordering::SeqCst);
                    return Ok(());
                }
                Err(back) => value = back,
            }
        }
        Err(value)
    }

    /// Puts this into a place, which is not that of what is shown.
    fn put(&self, shown: u64, at: usize, value: X) -> Result<(), X>
        requires { X.fits self.now value }
        ensures { IfErr result (λ back. back ≡ value) }
    {
        if at as u64 == shown {
            return Err(value);
        }
        match self.places.get(at) {
            None => Err(value),
            Some(place) => put(place, value),
        }
    }

    /// One more of what is shown. None where nothing is, where it was changed under each of many tries, or where there can be
    /// no more of it.
    pub fn look(&self) -> Option<X>
        ensures { IfSome result (X.fits self.now) }
    {
        for _ in 0..MOST_TRIES {
            if let Some(value) = self.glance() {
                return Some(value);
            }
        }
        None
    }

    /// The same, where nobody comes between.
    fn glance(&self) -> Option<X>
        ensures { IfSome result (X.fits self.now) }
    {
        let at = self.current.load(Ordering::SeqCst);
        match self.places.get(at as usize) {
            None => None,
            Some(place) => read(place),
        }
    }
}
