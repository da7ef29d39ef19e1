ghost use Rattle.std.specs.Prelude.{◌≡◌, ◌∷◌, [], ◌++◌, length, take, vec_len, vec_capacity, ◌+◌, ◌≤◌, Some, IfOk, IfErr, OnOk, OnErr};
ghost use Rattle.std.specs.List.{slice_get};
ghost use Rattle.std.specs.Arc.{arc_value};
ghost use Rattle.std.specs.Option.{option_copied, option_map};
ghost use Rattle.pf_collections.specs.List.Sharing.{values_of};

use std::alloc::{AllocError, AllocFailed, Global};
use std::marker::Model;
use std::sync::Arc;

/// Items that copies share. A change is made in place where nobody else has them, and else on a new list of their owners.
#[derive(Debug, Drop)]
pub(crate) struct Group<T> {
    alloc: Global,

    /// No items, where nothing is shared.
    items: Option<Arc<Vec<Arc<T>>>>,
}

impl<T> Model for Group<T> {
    ghost use Rattle.std.specs.Prelude.{List};
    ghost use Rattle.pf_collections.specs.List.Sharing.{items_shared};

    ghost Value = { List T };

    ghost view = { λ g. items_shared g.items };
}

impl<T> Group<T> {
    /// No items.
    pub(crate) fn new(alloc: Global) -> Self
        ensures { result ≡ [] }
    {
        Group { alloc, items: None }
    }

    /// The owners of the items.
    fn owners(&self) -> &[Arc<T>]
        ensures { values_of result.now ≡ self.now }
    {
        match &self.items {
            Some(items) => items.as_slice(),
            None => &[],
        }
    }

    /// What it takes its memory from.
    pub(crate) fn allocator(&self) -> Global {
        self.alloc
    }

    /// Whether there is a list of items, which nobody else has.
    fn has_one_owner(&self) -> bool {
        match &self.items {
            Some(items) => Arc::strong_count(items) == 1,
            None => false,
        }
    }

    /// How many items there are.
    pub(crate) fn len(&self) -> usize
        ensures { result ≡ length self.now }
    {
        self.owners().len()
    }

    /// The k-th item, where there is one.
    pub(crate) fn get(&self, k: usize) -> Option<&T>
        ensures { option_copied result ≡ slice_get self.now k }
    {
        match self.owner(k) {
            Some(owner) => Some(owner),
            None => None,
        }
    }

    /// The owner of the k-th item, where there is one.
    pub(crate) fn owner(&self, k: usize) -> Option<&Arc<T>>
        ensures { option_map (λ owner. arc_value owner.now) result ≡ slice_get self.now k }
    {
        self.owners().get(k)
    }

    /// Equal items, shared.
    ///
    /// # Errors
    ///
    /// Where memory is refused.
    pub(crate) fn copy(&self) -> Result<Self, AllocError>
        ensures { IfOk result (λ g. g ≡ self.now) }
    {
        let items = match &self.items {
            Some(items) => Some(Arc::try_clone(items)?),
            None => None,
        };
        Ok(Group {
            alloc: self.alloc,
            items,
        })
    }
}

impl<T: Drop> Group<T> {
    /// Appends an item.
    ///
    /// # Errors
    ///
    /// Where memory is refused: the items are as before, and the new one is handed back.
    pub(crate) fn push(&mut self, item: T) -> Result<(), AllocFailed<T>>
        ensures ok { OnOk result (self.new ≡ self.old ++ item ∷ []) }
        ensures err { OnErr result (self.new ≡ self.old) }
        ensures item { IfErr result (λ refused. refused.value ≡ item) }
    {
        if self.own().is_err() {
            return Err(AllocFailed { value: item });
        }
        if let Some(shared) = &mut self.items {
            if let Some(items) = Arc::get_mut(shared) {
                return append(self.alloc, items, item);
            }
        }
        // Not reached, since nobody else has the items now.
        Err(AllocFailed { value: item })
    }

    /// Lets the k-th item be kept by this owner, which has an equal one; not where others share these items. It takes no
    /// memory.
    pub(crate) fn share(&mut self, k: usize, owner: &Arc<T>)
        requires { Some (arc_value owner.now) ≡ slice_get self.old k }
        ensures { self.new ≡ self.old }
    {
        if let Some(shared) = &mut self.items {
            if let Some(items) = Arc::get_mut(shared) {
                put(items, k, owner);
            }
        }
    }

    /// Keeps the first `count` items, where there are more. It takes no memory where nobody else has them.
    ///
    /// # Errors
    ///
    /// Where memory is refused: the items are as before.
    pub(crate) fn truncate(&mut self, count: usize) -> Result<(), AllocError>
        ensures ok { OnOk result (self.new ≡ take count self.old) }
        ensures err { OnErr result (self.new ≡ self.old) }
    {
        if self.len() <= count {
            return Ok(());
        }
        if let Some(shared) = &mut self.items {
            if let Some(items) = Arc::get_mut(shared) {
                items.truncate(count);
                return Ok(());
            }
        }
        let kept = share(self.alloc, &self.owners()[..count])?;
        self.items = Some(Arc::new(self.alloc, kept)?);
        Ok(())
    }

    /// Puts the same items on a list that nobody else has, where there is none yet.
    ///
    /// # Errors
    ///
    /// Where memory is refused.
    fn own(&mut self) -> Result<(), AllocError>
        ensures { self.new ≡ self.old }
    {
        if self.has_one_owner() {
            return Ok(());
        }
        let items = share(self.alloc, self.owners())?;
        self.items = Some(Arc::new(self.alloc, items)?);
        Ok(())
    }
}

/// The same items, each with one owner more.
fn share<T: Drop>(alloc: Global, owners: &[Arc<T>]) -> Result<Vec<Arc<T>>, AllocError>
    ensures { IfOk result (λ shared. values_of shared.items ≡ values_of owners.now) }
{
    Vec::from_clones(alloc, owners)
}

/// Puts this owner, whose item is equal, in place of the k-th.
fn put<T: Drop>(items: &mut Vec<Arc<T>>, k: usize, owner: &Arc<T>)
    requires { Some (arc_value owner.now) ≡ slice_get (values_of items.old.items) k }
    ensures { values_of items.new.items ≡ values_of items.old.items }
{
    if let Ok(owner) = Arc::try_clone(owner) {
        items[k] = owner;
    }
}

/// Appends an item. Where memory is refused, they are as before.
fn append<T: Drop>(alloc: Global, items: &mut Vec<Arc<T>>, item: T) -> Result<(), AllocFailed<T>>
    ensures ok { OnOk result (values_of items.new.items ≡ values_of items.old.items ++ item ∷ []) }
    ensures err { OnErr result (items.new.items ≡ items.old.items) }
    ensures item { IfErr result (λ refused. refused.value ≡ item) }
{
    if items.reserve(1).is_err() {
        return Err(AllocFailed { value: item });
    }
    let owner = Arc::new(alloc, item)?;
    items.push_reserved(owner);
    Ok(())
}
