ghost use Rattle.std.specs.Prelude.{◌≡◌, ℕ, ◌+◌, ◌<◌, ◌↔◌, [], length, IsSome, IfSome, IfOk, OnOk, OnErr};
ghost use Rattle.std.specs.Borrow.{sem};
ghost use Rattle.pf_collections.specs.Table.Grown.{value_of, size_of, with_value, grown_to};
ghost use Rattle.pf_collections.specs.Table.Lends.{lends_value};

use std::alloc::{AllocError, Global};
use std::marker::Model;

/// A value for each task number. It takes the memory of the numbers up to the greatest for which room was made.
#[derive(Drop)]
pub struct Table<T> {
    values: Vec<T>,
    fill: T,
}

impl<T> Model for Table<T> {
    ghost use Rattle.std.specs.Prelude.{List};

    ghost Value = { List T × T };

    ghost view = { λ t. (t.values.items, t.fill) };
}

impl<T: Copy> Table<T> {
    /// Every number has the fill value. Takes no memory.
    pub fn new(alloc: Global, fill: T) -> Self
        ensures { result ≡ ([], fill) }
    {
        Table {
            values: Vec::new(alloc),
            fill,
        }
    }

    /// Makes room for the values of the numbers up to this one.
    ///
    /// # Errors
    ///
    /// Where memory is refused: all is as before.
    pub fn reserve(&mut self, task: u32) -> Result<(), AllocError>
        ensures ok { OnOk result (self.new ≡ grown_to (task + 1) self.old) }
        ensures err { OnErr result (self.new ≡ self.old) }
        ensures same { (t : ℕ) → value_of self.new t ≡ value_of self.old t }
    {
        let more = (task as usize + 1).saturating_sub(self.values.len());
        self.values.reserve(more)?;
        for _number in 0..more {
            self.values.push_reserved(self.fill);
        }
        Ok(())
    }

    /// The value of the number.
    pub fn get(&self, task: u32) -> T
        ensures { result ≡ value_of self.now task }
    {
        match self.values.get(task as usize) {
            Some(value) => *value,
            None => self.fill,
        }
    }

    /// The number's own value, for writing: none, where no room was made for it.
    pub fn get_mut(&mut self, task: u32) -> Option<&mut T>
        ensures* writes_back { sem 𝓛 (lends_value T.row self.entry task result) }
        ensures room { IsSome result ↔ (task < size_of self.old) }
        ensures value { IfSome result (λ x. x.now ≡ value_of self.old task) }
    {
        self.values.get_mut(task as usize)
    }

    /// Sets the value of the number, for which there must be room.
    pub fn set(&mut self, task: u32, value: T)
        requires { task < size_of self.old }
        ensures { self.new ≡ with_value self.old task value }
    {
        self.values[task as usize] = value;
    }

    /// The same values, in the memory of the numbers that have room.
    ///
    /// # Errors
    ///
    /// Where memory is refused.
    pub fn copy(&self) -> Result<Self, AllocError>
        ensures { IfOk result (λ t. t ≡ self.now) }
    {
        let alloc = *self.values.allocator();
        let values = Vec::from_slice(alloc, &self.values)?;
        Ok(Table {
            values,
            fill: self.fill,
        })
    }
}
