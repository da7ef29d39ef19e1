ghost use Rattle.std.specs.Prelude.{◌≡◌, Option, None, Some, MatchOption};
ghost use Rattle.pf_shared_c_api.specs.declared.content.Content.{Content};

use crate::content::Content;
use pf_c_forms::raw_box::RawBox;
use std::alloc::Global;
use std::marker::Model;
use std::mem;
use std::ptr::null_mut;

/// What C has of a shared desk, or nothing: a pointer, or null. The pointer has no type of its own, so that C's structs say
/// nothing of the parts of what it points to.
#[repr(C)]
pub struct Handle {
    at: *mut u8,
    pub ghost value: { Option Content },
}

impl Model for Handle {
    ghost use Rattle.pf_c_forms.specs.Kept.{kept_at};
    ghost use Rattle.pf_shared_c_api.specs.contracts.content.Content.{the_row};

    ghost also_owns = { λ h. kept_at the_row h.at h.value };
}

// A handle owns what it has alone, and any thread may free it: `handle_crosses` asks for the proof.
unsafe impl Send for Handle {}

impl Handle {
    /// A handle that has nothing.
    fn closed() -> Self
        ensures { result.value ≡ None }
    {
        Handle { at: null_mut() }
    }

    /// A handle that has what is in this box.
    fn holding(content: RawBox<Content, Global>) -> Self
        ensures { result.value ≡ Some content.value }
    {
        let RawBox { at, alloc: _ } = content;
        Handle { at: at as *mut u8 }
    }

    /// The box of what it has.
    fn into_raw_box(self, alloc: Global) -> Option<RawBox<Content, Global>>
        ensures { MatchOption result (self.value ≡ None) (λ b. self.value ≡ Some b.value) }
    {
        let Handle { at } = self;
        if at.is_null() {
            None
        } else {
            Some(RawBox {
                at: at as *mut Content,
                alloc,
            })
        }
    }

    /// Takes out what it has: the handle is closed until `put`.
    pub fn take(&mut self, alloc: Global) -> Option<Box<Content>>
        ensures value { MatchOption result (self.old.value ≡ None) (λ b. self.old.value ≡ Some b.value) }
        ensures closed { self.new.value ≡ None }
    {
        let before = mem::replace(self, Handle::closed());
        match before.into_raw_box(alloc) {
            None => None,
            Some(content) => Some(content.into_box()),
        }
    }

    /// Puts something in, and drops what was there.
    pub fn put(&mut self, alloc: Global, content: Box<Content>)
        ensures { self.new.value ≡ Some content.value }
    {
        let before = mem::replace(self, Handle::holding(RawBox::of(content)));
        match before.into_raw_box(alloc) {
            None => {}
            Some(content) => drop(content.into_box()),
        }
    }
}

/// The handle of a shared desk: C calls it `pfair_shared`.
pub type SharedHandle = Handle;

/// The handle of a caller: C calls it `pfair_caller`.
pub type CallerHandle = Handle;

/// The handle of a reader: C calls it `pfair_reader`.
pub type ReaderHandle = Handle;

/// The handle of a snapshot: C calls it `pfair_snapshot`.
pub type SnapshotHandle = Handle;

/// Takes what may go to another thread.
fn crosses<T: Send>(_: &T) {}

/// A handle may go to another thread: a body that calls for it, so that the check proves it.
pub fn handle_crosses(handle: &Handle) {
    crosses(handle);
}
