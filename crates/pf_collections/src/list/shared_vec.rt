ghost use Rattle.std.specs.Prelude.{◌≡◌, ◌==◌, ◌+◌, ◌≤◌, [], ◌++◌, length, take, vec_len, vec_capacity, IfOk, OnOk};

use std::alloc::{AllocError, Global};
use std::marker::Model;
use std::sync::Arc;

/// A vector of which copies share the items until one of them changes, which then copies them once.
///
/// Clauses see its items, and for how many more it has room.
#[derive(Debug)]
pub struct SharedVec<T> {
    /// The items, where none are shared; else nothing but room for them.
    own: Vec<T>,
    shared: Option<Arc<Vec<T>>>,
}

// A call of its own, so that who drops a vector sees none of its parts.
impl<T: Drop> Drop for SharedVec<T> {
    fn drop(self) {
        let SharedVec { own: _, shared: _ } = self;
    }
}

impl<T> Model for SharedVec<T> {
    ghost use Rattle.std.specs.Prelude.{◌≡◌, ◌-◌, [], length, IfSome, vec_capacity};
    ghost use Rattle.pf_collections.specs.List.Sharing.{items_or};
    ghost use Rattle.pf_collections.specs.List.WithRoom.{WithRoom};

    ghost Value = { WithRoom T };

    ghost view = { λ v. record {
      items = items_or v.own.items v.shared;
      room = vec_capacity v.own - length (items_or v.own.items v.shared);
    } };

    ghost invariant = { λ v. IfSome v.shared (λ _. v.own.items ≡ []) };
}

impl<T: Copy> SharedVec<T> {
    /// No items.
    pub fn new(alloc: Global) -> Self
        ensures { result.items ≡ [] }
    {
        SharedVec {
            own: Vec::new(alloc),
            shared: None,
        }
    }

    /// The items.
    pub fn as_slice(&self) -> &[T]
        ensures { result.now ≡ self.now.items }
    {
        match &self.shared {
            Some(items) => items.as_slice(),
            None => self.own.as_slice(),
        }
    }

    /// How many items there are.
    pub fn len(&self) -> usize
        ensures { result ≡ length self.now.items }
    {
        self.as_slice().len()
    }

    /// Whether there are no items.
    pub fn is_empty(&self) -> bool
        ensures { result ≡ (length self.now.items == 0) }
    {
        self.len() == 0
    }

    /// Makes room for `count` more items. Where others share the items, that is a piece of memory for all of them, into
    /// which they are copied once there are more.
    ///
    /// # Errors
    ///
    /// Where memory is refused.
    pub fn reserve(&mut self, count: usize) -> Result<(), AllocError>
        ensures items { self.new.items ≡ self.old.items }
        ensures room { OnOk result (count ≤ self.new.room) }
    {
        if count == 0 {
            return Ok(());
        }
        let all = self.len().checked_add(count).ok_or(AllocError)?;
        match self.shared.take() {
            None => self.own.reserve(count),
            Some(shared) => match Arc::try_unwrap(shared) {
                Ok(items) => {
                    self.own = items;
                    self.own.reserve(count)
                }
                Err(shared) => {
                    self.shared = Some(shared);
                    self.own.reserve(all)
                }
            },
        }
    }

    /// Appends these items, for which there is room; it takes no memory.
    pub fn extend_reserved(&mut self, more: &[T])
        requires { length more.now ≤ self.old.room }
        ensures { self.new.items ≡ self.old.items ++ more.now }
    {
        if more.is_empty() {
            return;
        }
        if let Some(shared) = self.shared.take() {
            append(&mut self.own, &shared);
        }
        append(&mut self.own, more);
    }

    /// Lets copies share the items, and gives back room that is not used. Without it, or where memory for it is refused, a
    /// copy after `extend_reserved` copies each item.
    pub fn share(&mut self)
        ensures { self.new.items ≡ self.old.items }
    {
        let alloc = *self.own.allocator();
        let own = std::mem::replace(&mut self.own, Vec::new(alloc));
        if own.is_empty() {
            return;
        }
        match Arc::new(alloc, own) {
            Ok(items) => self.shared = Some(items),
            Err(refused) => self.own = refused.value,
        }
    }

    /// The first `count` items; all of them, shared, where there are no more.
    ///
    /// # Errors
    ///
    /// Where memory is refused.
    pub fn first(&self, count: usize) -> Result<Self, AllocError>
        ensures { IfOk result (λ vec. vec.items ≡ take count self.now.items) }
    {
        let alloc = *self.own.allocator();
        let items = self.as_slice();
        if let Some(shared) = &self.shared {
            if items.len() <= count {
                return Ok(SharedVec {
                    own: Vec::new(alloc),
                    shared: Some(Arc::try_clone(shared)?),
                });
            }
        }
        let mut first = SharedVec {
            own: Vec::from_slice(alloc, &items[..items.len().min(count)])?,
            shared: None,
        };
        first.share();
        Ok(first)
    }

    /// All items, shared.
    ///
    /// # Errors
    ///
    /// Where memory is refused.
    pub fn copy(&self) -> Result<Self, AllocError>
        ensures { IfOk result (λ vec. vec.items ≡ self.now.items) }
    {
        self.first(self.len())
    }
}

/// Appends these items, for which there is room.
fn append<T: Copy>(items: &mut Vec<T>, more: &[T])
    requires { vec_len items.old + length more.now ≤ vec_capacity items.old }
    ensures items { items.new.items ≡ items.old.items ++ more.now }
    ensures room { vec_capacity items.old ≤ vec_capacity items.new }
{
    match items.extend_from_slice(more) {
        Ok(()) => {}
        Err(_) => unreachable!(),
    }
}
