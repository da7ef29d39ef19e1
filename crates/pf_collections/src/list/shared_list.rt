ghost use Rattle.std.specs.Prelude.{◌≡◌, ◌==◌, ◌+◌, ◌-◌, ◌≤◌, ◌<◌, ◌∷◌, [], ◌++◌, length, take, IfOk, IfErr, OnOk, OnErr};
ghost use Rattle.std.specs.List.{slice_get};
ghost use Rattle.std.specs.Arc.{arc_value};
ghost use Rattle.std.specs.Option.{option_copied, option_map};
ghost use Rattle.pf_collections.specs.List.Grouping.{grouped, AreGroups};

use crate::list::group::Group;
use std::alloc::{AllocError, AllocFailed, Global};
use std::marker::Model;
use std::sync::Arc;

/// How many items a full group has.
const GROUP: usize = 128;

/// The most full groups, so that the items can be counted: far beyond what a memory holds.
const MOST_GROUPS: usize = 0x40_0000_0000_0000;

/// A list that grows and shrinks at its end. A copy shares the items, and costs the same however many there are. The first
/// item that is then appended to either of the two costs an owner more of each item after the last full group of 128, and
/// the first that opens a new group an owner more of each full group.
///
/// Items that are taken off, or that `first` leaves out, are kept in memory until the next one is appended.
#[derive(Debug)]
pub struct SharedList<T> {
    full: Group<Group<T>>,
    last: Group<T>,

    /// How many items of the groups are in the list: the others were taken off.
    count: usize,
}

// A call of its own, so that who drops a list sees none of its groups.
impl<T: Drop> Drop for SharedList<T> {
    fn drop(self) {
        let SharedList {
            full: _,
            last: _,
            count: _,
        } = self;
    }
}

impl<T> Model for SharedList<T> {
    ghost use Rattle.std.specs.Prelude.{List, take};
    ghost use Rattle.pf_collections.specs.List.Grouping.{grouped, HoldFirst};

    ghost Value = { List T };

    ghost view = { λ l. take l.count (grouped l.full l.last) };

    ghost invariant = { λ l. HoldFirst l.full l.last l.count };
}

impl<T: Drop> SharedList<T> {
    /// No items.
    pub fn new(alloc: Global) -> Self
        ensures { result ≡ [] }
    {
        SharedList {
            full: Group::new(alloc),
            last: Group::new(alloc),
            count: 0,
        }
    }

    /// How many items there are.
    pub fn len(&self) -> usize
        ensures { result ≡ length self.now }
    {
        self.count
    }

    /// Whether there are no items.
    pub fn is_empty(&self) -> bool
        ensures { result ≡ (length self.now == 0) }
    {
        self.len() == 0
    }

    /// The k-th item, from 0 on, where there is one.
    pub fn get(&self, k: usize) -> Option<&T>
        ensures { option_copied result ≡ slice_get self.now k }
    {
        match self.owner(k) {
            Some(owner) => Some(owner),
            None => None,
        }
    }

    /// The owner of the k-th item, where there is one.
    fn owner(&self, k: usize) -> Option<&Arc<T>>
        ensures { option_map (λ owner. arc_value owner.now) result ≡ slice_get self.now k }
    {
        if k >= self.count {
            return None;
        }
        match self.full.get(k / GROUP) {
            Some(group) => group.owner(k % GROUP),
            None => self.last.owner(k - self.full.len() * GROUP),
        }
    }

    /// The last item, where there is one.
    pub fn last(&self) -> Option<&T>
        ensures { option_copied result ≡ slice_get self.now (length self.now - 1) }
    {
        self.get(self.len().checked_sub(1)?)
    }

    /// Appends an item.
    ///
    /// # Errors
    ///
    /// Where memory is refused: the list is as before, and the item is handed back.
    pub fn push(&mut self, item: T) -> Result<(), AllocFailed<T>>
        ensures ok { OnOk result (self.new ≡ self.old ++ item ∷ []) }
        ensures err { OnErr result (self.new ≡ self.old) }
        ensures item { IfErr result (λ refused. refused.value ≡ item) }
    {
        if make_room(&mut self.full, &mut self.last, self.count).is_err() {
            return Err(AllocFailed { value: item });
        }
        self.last.push(item)?;
        self.count += 1;
        Ok(())
    }

    /// Takes the last item off, where there is one; it takes no memory.
    pub fn pop(&mut self)
        ensures { self.new ≡ take (length self.old - 1) self.old }
    {
        self.count = self.count.saturating_sub(1);
    }

    /// Lets the last item be shared with another list whose item at that place is equal, so that memory has it once. It
    /// takes no memory; nothing is done where a copy of this list has the item too.
    pub fn share_last(&mut self, other: &SharedList<T>)
        requires { slice_get other.now (length self.old - 1) ≡ slice_get self.old (length self.old - 1) }
        ensures { self.new ≡ self.old }
    {
        let Some(k) = self.count.checked_sub(1) else {
            return;
        };
        let Some(at) = k.checked_sub(self.full.len() * GROUP) else {
            return;
        };
        if let Some(owner) = other.owner(k) {
            self.last.share(at, owner);
        }
    }

    /// The first `count` items, shared; all of them where there are fewer.
    ///
    /// # Errors
    ///
    /// Where memory is refused.
    pub fn first(&self, count: usize) -> Result<Self, AllocError>
        ensures { IfOk result (λ list. list ≡ take count self.now) }
    {
        Ok(SharedList {
            full: self.full.copy()?,
            last: self.last.copy()?,
            count: self.count.min(count),
        })
    }

    /// All items, shared.
    ///
    /// # Errors
    ///
    /// Where memory is refused.
    pub fn copy(&self) -> Result<Self, AllocError>
        ensures { IfOk result (λ list. list ≡ self.now) }
    {
        self.first(self.count)
    }
}

/// Leaves the first `count` items, with room for one more in the last group. Where memory is refused, they are there
/// still, and maybe others.
fn make_room<T: Drop>(
    full: &mut Group<Group<T>>,
    last: &mut Group<T>,
    count: usize,
) -> Result<(), AllocError>
    requires groups { AreGroups full.old last.old }
    requires within { count ≤ length (grouped full.old last.old) }
    ensures first { take count (grouped full.new last.new) ≡ take count (grouped full.old last.old) }
    ensures groups { AreGroups full.new last.new }
    ensures within { count ≤ length (grouped full.new last.new) }
    ensures trimmed { OnOk result (length (grouped full.new last.new) ≡ count) }
    ensures room { OnOk result (length last.new < 128) }
{
    trim(full, last, count)?;
    close(full, last)
}

/// Leaves the first `count` items. Where memory is refused, all are as before.
fn trim<T: Drop>(
    full: &mut Group<Group<T>>,
    last: &mut Group<T>,
    count: usize,
) -> Result<(), AllocError>
    requires groups { AreGroups full.old last.old }
    requires within { count ≤ length (grouped full.old last.old) }
    ensures ok { OnOk result (grouped full.new last.new ≡ take count (grouped full.old last.old)) }
    ensures err { OnErr result (grouped full.new last.new ≡ grouped full.old last.old) }
    ensures groups { AreGroups full.new last.new }
{
    let whole = count / GROUP;
    match full.get(whole) {
        None => last.truncate(count - full.len() * GROUP),
        Some(group) => {
            let mut part = group.copy()?;
            part.truncate(count % GROUP)?;
            full.truncate(whole)?;
            *last = part;
            Ok(())
        }
    }
}

/// Puts the last group after the full ones where it is full, and goes on with another. Where memory is refused, both are
/// as before.
fn close<T: Drop>(full: &mut Group<Group<T>>, last: &mut Group<T>) -> Result<(), AllocError>
    requires { AreGroups full.old last.old }
    ensures same { grouped full.new last.new ≡ grouped full.old last.old }
    ensures groups { AreGroups full.new last.new }
    ensures room { OnOk result (length last.new < 128) }
{
    if last.len() < GROUP {
        return Ok(());
    }
    if full.len() >= MOST_GROUPS {
        return Err(AllocError);
    }
    full.push(last.copy()?)?;
    *last = Group::new(last.allocator());
    Ok(())
}
