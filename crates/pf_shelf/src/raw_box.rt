ghost use Rattle.std.specs.Prelude.{◌≡◌};
ghost use Rattle.std.specs.Box.Ownership.{box_owns};

use counted_slot::Fits;
use std::alloc::{Allocator, Global};
use std::marker::Model;

/// A box taken apart: its pointer, and the allocator that gave its memory. Nobody reads the value through a `&` to it, so
/// threads may share it wherever the box may go to another thread.
pub(crate) struct RawBox<T, A: Allocator> {
    at: *mut T,
    alloc: A,
    pub ghost value: { T },
}

impl<T, A: Allocator> Model for RawBox<T, A> {
    ghost also_owns = { λ b. box_owns (A.dealloc_token b.alloc) T.row b.at b.value };
}

impl<T: Drop, A: Allocator> RawBox<T, A> {
    /// Takes a box apart.
    pub(crate) fn of(value: Box<T, A>) -> RawBox<T, A>
        ensures { result.value ≡ value.value }
    {
        let (at, alloc) = Box::into_raw_with_allocator(value);
        RawBox { at, alloc }
    }

    /// Makes the box again.
    pub(crate) fn into_box(self) -> Box<T, A>
        ensures { result.value ≡ self.value }
    {
        let RawBox { at, alloc } = self;
        unsafe { Box::from_raw(alloc, at) }
    }
}

impl<T: Drop, A: Allocator> Drop for RawBox<T, A> {
    fn drop(self) {
        drop(self.into_box());
    }
}

unsafe impl<T: Send, A: Allocator + Send> Send for RawBox<T, A> {}

unsafe impl<T: Send, A: Allocator + Send> Sync for RawBox<T, A> {}

impl<T: Fits> Fits for RawBox<T, Global> {
    type Tag = T::Tag;

    ghost fits = { λ tag b. T.fits tag b.value };
}
