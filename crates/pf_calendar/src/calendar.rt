ghost use Rattle.std.specs.Prelude.{◌≡◌, ◌≢◌, ℕ, ◌+◌, ◌-◌, ◌*◌, ◌<◌, ◌≤◌, ◌^◌, length, max, All, IsTrue, IfOk, IfSome, OnOk, OnErr, MatchOption, vec_len};
ghost use Rattle.std.specs.Vec.{vec_capacity};
ghost use Rattle.std.specs.Ordering.{nat_cmp};
ghost use Rattle.std.specs.FinSet as set;
ghost use Rattle.std.specs.FinMap as map;
ghost use Rattle.pf_order.specs.Counts.{Compares};
ghost use Rattle.pf_weight.specs.declared.task.TheConstants.{LARGEST_TASK};
ghost use Rattle.pf_heap.specs.Keys.{IsFirst};
ghost use Rattle.pf_heap.specs.Digits.{digits};
ghost use Rattle.pf_calendar.specs.Queues.{list_at, until, later, due, key_count, IsQueued, TakesOut, EachTaskOnce, NoneEmpty};

use crate::merge::merge_all;
use crate::names::{add_heaps, open};
use crate::taking::{discount, remove_waiting};
use crate::waiting_list::WaitingList;
use pf_collections::table::table::Table;
use pf_heap::arena::{Arena, HeapId};
use pf_order::key::Key;
use pf_order::meter::Meter;
use pf_weight::task::LARGEST_TASK;
use std::alloc::{AllocError, Global};
use std::marker::Model;

/// Keys that wait for their slots, and keys that are ready. A task is held at most once.
#[derive(Drop)]
pub struct Calendar {
    /// The ready keys in the main heap, and those that wait in the heap of their slot's list.
    heaps: Arena,
    /// By rising slots.
    waiting: Vec<WaitingList>,
    /// Empty heaps.
    unused: Vec<HeapId>,
    /// The slot that each task's key was put for.
    slots: Table<u64>,
    /// How many keys are held.
    held: usize,
    /// So many keys can be held before memory is wanted.
    limit: usize,
}

impl Model for Calendar {
    ghost use Rattle.std.specs.Prelude.{◌-◌};
    ghost use Rattle.std.specs.Vec.{vec_capacity};
    ghost use Rattle.pf_calendar.specs.Queues.{Queues, queues_code};

    ghost Value = { Queues };

    ghost coded = { queues_code };

    ghost use Rattle.pf_calendar.specs.Invariant.{waiting_in, IsCalendar, NotesSlots};

    ghost view = { λ c. record { ready = c.heaps.main; waiting = waiting_in c.heaps c.waiting.items; spare = c.limit - c.held; tasks = c.heaps.tasks } };

    ghost invariant = { λ c. IsCalendar c.heaps c.waiting.items c.unused.items c.held c.limit (vec_capacity c.waiting) (vec_capacity c.unused)
        × NotesSlots c.slots c.heaps.tasks (waiting_in c.heaps c.waiting.items) };
}

impl Calendar {
    /// A calendar that holds nothing.
    ///
    /// # Errors
    ///
    /// Where memory is refused.
    pub fn new(alloc: Global) -> Result<Self, AllocError>
        ensures { IfOk result (λ c. c ≡ record { ready = set.empty; waiting = map.empty; spare = 0; tasks = 0 }) }
    {
        Ok(Self {
            heaps: Arena::new(alloc)?,
            waiting: Vec::new(alloc),
            unused: Vec::new(alloc),
            slots: Table::new(alloc, 0),
            held: 0,
            limit: 0,
        })
    }

    /// How many keys are held.
    pub fn len(&self) -> usize
        ensures { result ≡ key_count self.now }
    {
        self.held
    }

    /// Makes room for at least n more keys, of any tasks: with those held no more than 2^32 - 3, for which heaps can be named.
    ///
    /// # Errors
    ///
    /// Where memory is refused: all is as before, but for the room, which may be greater.
    pub fn reserve(&mut self, n: usize) -> Result<(), AllocError>
        requires few { key_count self.old + n ≤ 2 ^ 32 - 3 }
        ensures ready { self.new.ready ≡ self.old.ready }
        ensures waiting { self.new.waiting ≡ self.old.waiting }
        ensures grows { self.old.spare ≤ self.new.spare }
        ensures ok { OnOk result ((n ≤ self.new.spare) × (LARGEST_TASK < self.new.tasks)) }
        ensures err { OnErr result (self.new.tasks ≡ self.old.tasks) }
    {
        self.reserve_room(n)?;
        self.reserve_task(LARGEST_TASK as u32)
    }

    /// Makes room for at least n more keys, of tasks that have theirs: with those held no more than 2^32 - 3, for which heaps can be named.
    ///
    /// # Errors
    ///
    /// Where memory is refused: all is as before.
    pub fn reserve_room(&mut self, n: usize) -> Result<(), AllocError>
        requires few { key_count self.old + n ≤ 2 ^ 32 - 3 }
        ensures ready { self.new.ready ≡ self.old.ready }
        ensures waiting { self.new.waiting ≡ self.old.waiting }
        ensures tasks { self.new.tasks ≡ self.old.tasks }
        ensures grows { self.old.spare ≤ self.new.spare }
        ensures ok { OnOk result (n ≤ self.new.spare) }
        ensures err { OnErr result (self.new ≡ self.old) }
    {
        if n <= self.limit - self.held {
            return Ok(());
        }
        let limit = self.held + n;
        let more = limit.saturating_sub(self.waiting.len() + self.unused.len());
        self.heaps.reserve_room(n)?;
        self.waiting.reserve(self.unused.len() + more)?;
        self.unused.reserve(self.waiting.len() + more)?;
        add_heaps(&mut self.heaps, &mut self.unused, more)?;
        self.limit = limit;
        Ok(())
    }

    /// Makes room for keys of the tasks up to this one (at most 4,095).
    ///
    /// # Errors
    ///
    /// Where memory is refused: all is as before.
    pub fn reserve_task(&mut self, task: u32) -> Result<(), AllocError>
        requires { task ≤ LARGEST_TASK }
        ensures ok { OnOk result (self.new ≡ record self.old { tasks = max self.old.tasks (task + 1) }) }
        ensures err { OnErr result (self.new ≡ self.old) }
    {
        self.slots.reserve(task)?;
        self.heaps.reserve_task(task)?;
        Ok(())
    }

    /// Adds the key to the list that waits for the slot.
    pub fn put(&mut self, meter: &mut Meter, slot: u64, key: Key)
        requires room { 1 ≤ self.old.spare }
        requires placed { key.task < self.old.tasks }
        requires absent { ¬ IsQueued self.old key.task }
        ensures put { self.new ≡ record self.old {
          waiting = map.insert self.old.waiting slot (set.insert (list_at self.old.waiting slot) key);
          spare = self.old.spare - 1;
        } }
        ensures counted { key_count self.new ≡ key_count self.old + 1 }
        ensures some { NoneEmpty self.new.waiting }
        ensures comparisons { Compares (digits (key_count self.old + 1)) meter.old meter.new }
    {
        let at = open(&mut self.waiting, &mut self.unused, slot);
        let entry = self.waiting[at];
        self.slots.set(key.task(), slot);
        self.heaps.insert(meter, entry.heap, key);
        self.waiting[at].count = entry.count + 1;
        self.held += 1;
    }

    /// Merges every list for a slot up to t into the ready list.
    pub fn advance(&mut self, meter: &mut Meter, t: u64)
        ensures advanced { self.new ≡ record self.old {
          ready = set.union self.old.ready (due t self.old.waiting);
          waiting = later t self.old.waiting;
        } }
        ensures counted { key_count self.new ≡ key_count self.old }
        ensures once { EachTaskOnce self.new }
        ensures some { NoneEmpty self.new.waiting }
        ensures comparisons { Compares (map.len (until t self.old.waiting) * digits (key_count self.old)) meter.old meter.new }
    {
        let due = self.waiting.partition_point(|entry| entry.slot <= t);
        merge_all(
            &mut self.heaps,
            meter,
            &self.waiting[..due],
            &mut self.unused,
        );
        drop(self.waiting.drain(..due));
    }

    /// Takes the first ready key out.
    pub fn pop_ready(&mut self, meter: &mut Meter) -> Option<Key>
        ensures popped { MatchOption result ((self.old.ready ≡ set.empty) × (self.new ≡ self.old))
            (λ k. IsFirst self.old.ready k
            × (self.new ≡ record self.old { ready = set.remove self.old.ready k; spare = self.old.spare + 1 })) }
        ensures counted { IfSome result (λ k. key_count self.new + 1 ≡ key_count self.old) }
        ensures once { EachTaskOnce self.old }
        ensures some { NoneEmpty self.new.waiting }
        ensures comparisons { Compares (2 * digits (key_count self.old)) meter.old meter.new }
    {
        let key = self.heaps.pop_main(meter)?;
        self.held -= 1;
        Some(key)
    }

    /// Takes the key of this task out, wherever it is. A waiting list that becomes empty is gone.
    pub fn take_out(&mut self, meter: &mut Meter, task: u32) -> Option<Key>
        ensures taken { MatchOption result ((¬ IsQueued self.old task) × (self.new ≡ self.old))
            (λ k. (k.task ≡ task) × TakesOut self.old self.new k) }
        ensures counted { IfSome result (λ k. key_count self.new + 1 ≡ key_count self.old) }
        ensures once { EachTaskOnce self.old }
        ensures some { NoneEmpty self.new.waiting }
        ensures comparisons { Compares (2 * digits (key_count self.old)) meter.old meter.new }
    {
        let slot = self.slots.get(task);
        if let Some(found) = remove_waiting(&mut self.heaps, meter, &self.waiting, slot, task) {
            let (at, key) = found;
            discount(&mut self.waiting, &mut self.unused, at);
            self.held -= 1;
            return Some(key);
        }
        let key = self.heaps.remove_main(meter, task)?;
        self.held -= 1;
        Some(key)
    }

    /// A calendar with the same lists, for keys of the same tasks, and no room.
    ///
    /// # Errors
    ///
    /// Where memory is refused.
    pub fn copy(&self) -> Result<Self, AllocError>
        ensures { IfOk result (λ c. c ≡ record self.now { spare = 0 }) }
    {
        let alloc = *self.waiting.allocator();
        let heaps = self.heaps.copy()?;
        let mut waiting = Vec::from_slice(alloc, &self.waiting)?;
        let mut unused = Vec::from_slice(alloc, &self.unused)?;
        let slots = self.slots.copy()?;
        waiting.reserve(self.unused.len())?;
        unused.reserve(self.waiting.len())?;
        Ok(Self {
            heaps,
            waiting,
            unused,
            slots,
            held: self.held,
            limit: self.held,
        })
    }
}
