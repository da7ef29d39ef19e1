ghost use Rattle.std.specs.Prelude.{◌≡◌, ◌==◌, ℕ, ◌<◌, [], ◌∷◌, ◌++◌, cond, length, OnOk, vec_len};
ghost use Rattle.pf_collections.specs.Table.Lists.{noted_of, with_note};

use std::alloc::{AllocError, Global};
use std::marker::Model;

/// What is noted of one task, in the order in which it was met.
#[derive(Drop)]
struct Notes<T> {
    items: Vec<T>,
}

impl<T> Model for Notes<T> {
    ghost use Rattle.std.specs.Prelude.{List};

    ghost Value = { List T };

    ghost view = { λ n. n.items.items };
}

impl<T> Notes<T> {
    /// Nothing.
    fn new(alloc: Global) -> Self
        ensures { result ≡ [] }
    {
        Notes {
            items: Vec::new(alloc),
        }
    }

    /// What is noted.
    fn as_slice(&self) -> &[T]
        ensures { result.now ≡ self.now }
    {
        self.items.as_slice()
    }
}

impl<T: Drop> Notes<T> {
    /// Appends x.
    fn push(&mut self, x: T) -> Result<(), AllocError>
        ensures { OnOk result (self.new ≡ self.old ++ x ∷ []) }
    {
        self.items.push(x)?;
        Ok(())
    }
}

/// A list for each task number. They take the memory of the numbers up to the greatest of which something is noted.
#[derive(Drop)]
pub struct Lists<T> {
    lists: Vec<Notes<T>>,
}

impl<T> Model for Lists<T> {
    ghost use Rattle.std.specs.Prelude.{List};

    ghost Value = { List (List T) };

    ghost view = { λ l. l.lists.items };
}

/// Adds empty lists until there is one at this place.
fn grow<T: Drop>(alloc: Global, lists: &mut Vec<Notes<T>>, place: usize) -> Result<(), AllocError>
    ensures room { OnOk result (place < vec_len lists.new) }
    ensures same { OnOk result ((t : ℕ) → noted_of lists.new.items t ≡ noted_of lists.old.items t) }
{
    for _place in lists.len()..place {
        lists.push(Notes::new(alloc))?;
    }
    if lists.len() <= place {
        lists.push(Notes::new(alloc))?;
    }
    Ok(())
}

impl<T> Lists<T> {
    /// All lists are empty. Takes no memory.
    pub fn new(alloc: Global) -> Self
        ensures { (t : ℕ) → noted_of result t ≡ [] }
    {
        Lists {
            lists: Vec::new(alloc),
        }
    }

    /// The task's list.
    pub fn get(&self, task: u64) -> &[T]
        ensures { result.now ≡ noted_of self.now task }
    {
        match self.lists.get(task as usize) {
            Some(notes) => notes.as_slice(),
            None => &[],
        }
    }
}

impl<T: Drop> Lists<T> {
    /// Notes x at the end of the task's list.
    ///
    /// # Errors
    ///
    /// Where memory is refused.
    pub fn note(&mut self, task: u64, x: T) -> Result<(), AllocError>
        ensures { OnOk result ((t : ℕ) → noted_of self.new t ≡ noted_of self.old t ++ cond (task == t) (x ∷ []) []) }
    {
        let place = task as usize;
        let alloc = *self.lists.allocator();
        grow(alloc, &mut self.lists, place)?;
        self.lists[place].push(x)?;
        Ok(())
    }
}
