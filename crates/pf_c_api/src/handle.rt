ghost use Rattle.std.specs.Prelude.{◌≡◌, Option, None, Some, MatchOption};
ghost use Rattle.pf_c_api.specs.declared.held.Held.{Held};

use crate::held::Held;
use pf_c_forms::raw_box::RawBox;
use std::alloc::Global;
use std::marker::Model;
use std::mem;
use std::ptr::null_mut;

/// A desk where C keeps it, or none: a pointer to the desk, or null. The pointer has no type of its own, so that C's
/// struct says nothing of a desk's parts.
#[repr(C)]
pub struct Handle {
    at: *mut u8,
    pub ghost value: { Option Held },
}

impl Model for Handle {
    ghost use Rattle.pf_c_forms.specs.Kept.{kept_at};
    ghost use Rattle.pf_c_api.specs.contracts.held.Held.{the_row};

    ghost also_owns = { λ h. kept_at the_row h.at h.value };
}

// A handle owns its desk alone, and any thread may free it: `handle_crosses` asks for the proof.
unsafe impl Send for Handle {}

impl Handle {
    /// A handle without a desk.
    fn closed() -> Self
        ensures { result.value ≡ None }
    {
        Handle { at: null_mut() }
    }

    /// A handle with the desk of this box.
    fn holding(desk: RawBox<Held, Global>) -> Self
        ensures { result.value ≡ Some desk.value }
    {
        let RawBox { at, alloc: _ } = desk;
        Handle { at: at as *mut u8 }
    }

    /// The box of its desk, where it has one.
    fn into_raw_box(self, alloc: Global) -> Option<RawBox<Held, Global>>
        ensures { MatchOption result (self.value ≡ None) (λ b. self.value ≡ Some b.value) }
    {
        let Handle { at } = self;
        if at.is_null() {
            None
        } else {
            Some(RawBox {
                at: at as *mut Held,
                alloc,
            })
        }
    }

    /// Takes its desk out, where it has one: the handle is closed until `put`.
    pub fn take(&mut self, alloc: Global) -> Option<Box<Held>>
        ensures value { MatchOption result (self.old.value ≡ None) (λ b. self.old.value ≡ Some b.value) }
        ensures closed { self.new.value ≡ None }
    {
        let held = mem::replace(self, Handle::closed());
        match held.into_raw_box(alloc) {
            None => None,
            Some(desk) => Some(desk.into_box()),
        }
    }

    /// Puts a desk in, and drops the one that was there.
    pub fn put(&mut self, alloc: Global, desk: Box<Held>)
        ensures { self.new.value ≡ Some desk.value }
    {
        let before = mem::replace(self, Handle::holding(RawBox::of(desk)));
        match before.into_raw_box(alloc) {
            None => {}
            Some(desk) => drop(desk.into_box()),
        }
    }
}

/// Takes what may go to another thread.
fn crosses<T: Send>(_: &T) {}

/// A handle may go to another thread: a body that calls for it, so that the check proves it.
pub fn handle_crosses(handle: &Handle) {
    crosses(handle);
}
