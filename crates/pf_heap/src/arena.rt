ghost use Rattle.std.specs.Prelude.{◌≡◌, ◌≢◌, ◌↔◌, IsTrue, true, ℕ, ◌+◌, ◌-◌, ◌*◌, ◌<◌, ◌≤◌, ◌^◌, [], ◌∷◌, ◌++◌, length, max, replicate, IfNone, IfOk, OnOk, OnErr, MatchOption};
ghost use Rattle.std.specs.FinSet as set;
ghost use Rattle.pf_weight.specs.declared.task.TheConstants.{LARGEST_TASK};
ghost use Rattle.pf_order.specs.Counts.{Compares};
ghost use Rattle.pf_heap.specs.Keys.{list_of, with_list, all_lists, IsHeld, IsFirst, HasNone, EachTaskOnce, other_keys};
ghost use Rattle.pf_heap.specs.Digits.{digits};

use crate::adding::add;
use crate::growing::grow;
use crate::node::{IDLE, NOWHERE, Node, idle_node};
use crate::popping::least_root;
use crate::splitting::{has_root, top};
use crate::table::Roots;
use crate::taking::{merge, take, take_first, take_from};
use pf_order::key::Key;
use pf_order::meter::Meter;
use pf_weight::task::LARGEST_TASK;
use std::alloc::{AllocError, Global};
use std::marker::Model;

/// Names one of an arena's heaps.
#[derive(Clone, Copy)]
pub struct HeapId {
    index: usize,
}

impl Model for HeapId {
    ghost use Rattle.std.specs.Prelude.{ℕ};

    ghost Value = { ℕ };

    ghost view = { λ h. h.index };

    ghost inverse = { λ n. record { index = n } };
}

/// The most keys that `reserve` makes room for: a `usize` then still counts the room that keys leave when they are taken.
const MOST_RESERVED: usize = 1 << 63;

/// Many heaps of keys in one block of nodes: a main one, and others that are named. A task is held at most once. The
/// node of a key is that of its task's number, so the arena takes the memory of the task numbers up to the greatest that
/// it has room for.
#[derive(Drop)]
pub struct Arena {
    nodes: Vec<Node>,
    /// The first root of each heap that is named.
    heads: Vec<u16>,
    main: Roots,
    room: usize,
}

impl Model for Arena {
    ghost use Rattle.pf_heap.specs.Keys.{Heaps, heaps_code};

    ghost Value = { Heaps };

    ghost coded = { heaps_code };

    ghost use Rattle.std.specs.Prelude.{length};
    ghost use Rattle.pf_heap.specs.View.{lists_at, main_at};
    ghost use Rattle.pf_heap.specs.Invariant.{IsArena};

    ghost view = { λ a. record { main = main_at a.nodes.items a.main; lists = lists_at a.nodes.items a.heads.items; spare = a.room; tasks = length a.nodes.items } };

    ghost invariant = { λ a. IsArena a.nodes.items a.heads.items a.main a.room };
}

impl Arena {
    /// An arena with no heap but the main one, which is empty.
    ///
    /// # Errors
    ///
    /// Never: it takes no memory yet.
    pub fn new(alloc: Global) -> Result<Self, AllocError>
        ensures { IfOk result (λ a. a ≡ record { main = set.empty; lists = []; spare = 0; tasks = 0 }) }
    {
        Ok(Self {
            nodes: Vec::new(alloc),
            heads: Vec::new(alloc),
            main: Roots::new(),
            room: 0,
        })
    }

    /// Adds an empty heap and names it.
    ///
    /// # Errors
    ///
    /// Where memory is refused: the heaps are as before.
    pub fn new_heap(&mut self) -> Result<HeapId, AllocError>
        requires { length self.old.lists < 2 ^ 32 - 1 }
        ensures ok { IfOk result
            (λ h. (h ≡ length self.old.lists) × (self.new ≡ record self.old { lists = self.old.lists ++ set.empty ∷ [] })) }
        ensures err { OnErr result (self.new ≡ self.old) }
    {
        let index = self.heads.len();
        self.heads.push(NOWHERE)?;
        Ok(HeapId { index })
    }

    /// Makes room for at least n more keys, of any tasks.
    ///
    /// # Errors
    ///
    /// Where memory is refused, or n is more than 2^63: all is as before, but for the room, which may be greater.
    pub fn reserve(&mut self, n: usize) -> Result<(), AllocError>
        ensures main { self.new.main ≡ self.old.main }
        ensures lists { self.new.lists ≡ self.old.lists }
        ensures grows { self.old.spare ≤ self.new.spare }
        ensures ok { OnOk result ((n ≤ self.new.spare) × (LARGEST_TASK < self.new.tasks)) }
        ensures err { OnErr result (self.new.tasks ≡ self.old.tasks) }
    {
        self.reserve_room(n)?;
        self.reserve_task(LARGEST_TASK as u32)
    }

    /// Makes room for at least n more keys, of tasks that have theirs. They take no memory here: a key has that of its task's number.
    ///
    /// # Errors
    ///
    /// Where n is more than 2^63: the arena is as before.
    pub fn reserve_room(&mut self, n: usize) -> Result<(), AllocError>
        ensures main { self.new.main ≡ self.old.main }
        ensures lists { self.new.lists ≡ self.old.lists }
        ensures tasks { self.new.tasks ≡ self.old.tasks }
        ensures grows { self.old.spare ≤ self.new.spare }
        ensures ok { OnOk result (n ≤ self.new.spare) }
        ensures err { OnErr result (self.new ≡ self.old) }
    {
        if n > MOST_RESERVED {
            return Err(AllocError);
        }
        self.room = self.room.max(n);
        Ok(())
    }

    /// Makes room for keys of the tasks up to this one (at most 4,095).
    ///
    /// # Errors
    ///
    /// Where memory is refused: all is as before.
    pub fn reserve_task(&mut self, task: u32) -> Result<(), AllocError>
        requires { task ≤ LARGEST_TASK }
        ensures ok { OnOk result (self.new ≡ record self.old { tasks = max self.old.tasks (task + 1) }) }
        ensures err { OnErr result (self.new ≡ self.old) }
    {
        let more = (task as usize + 1).saturating_sub(self.nodes.len());
        grow(&mut self.nodes, more, idle_node())
    }

    /// An arena with the same heaps, for keys of the same tasks, and no room.
    ///
    /// # Errors
    ///
    /// Where memory is refused.
    pub fn copy(&self) -> Result<Self, AllocError>
        ensures { IfOk result (λ a. a ≡ record self.now { spare = 0 }) }
    {
        let alloc = *self.nodes.allocator();
        let nodes = Vec::from_slice(alloc, &self.nodes)?;
        let heads = Vec::from_slice(alloc, &self.heads)?;
        Ok(Self {
            nodes,
            heads,
            main: self.main,
            room: 0,
        })
    }

    /// Whether some heap has a key of this task.
    pub fn holds(&self, task: u32) -> bool
        ensures held { IsTrue result ↔ IsHeld (all_lists self.now) task }
        ensures once { EachTaskOnce (all_lists self.now) }
    {
        match self.nodes.get(task as usize) {
            Some(node) => node.rank != IDLE,
            None => false,
        }
    }

    /// Adds the key to heap h.
    pub fn insert(&mut self, meter: &mut Meter, h: HeapId, key: Key)
        requires room { 1 ≤ self.old.spare }
        requires placed { key.task < self.old.tasks }
        requires heap { h < length self.old.lists }
        requires absent { ¬ IsHeld (all_lists self.old) key.task }
        ensures inserted { self.new
            ≡ record (with_list self.old h (set.insert (list_of self.old h) key)) { spare = self.old.spare - 1 } }
        ensures comparisons { Compares (digits (set.len (list_of self.old h) + 1)) meter.old meter.new }
    {
        let task = key.task();
        let index = h.index;
        let head = self.heads[index];
        self.nodes[task as usize] = Node {
            key,
            parent: NOWHERE,
            sibling: NOWHERE,
            child: NOWHERE,
            rank: 0,
        };
        let heap = add(&mut self.nodes, meter, task as u16, head);
        self.heads[index] = heap;
        self.room -= 1;
    }

    /// Merges heap `from` into heap `into` and leaves `from` empty.
    pub fn meld(&mut self, meter: &mut Meter, into: HeapId, from: HeapId)
        requires first { into < length self.old.lists }
        requires second { from < length self.old.lists }
        requires differ { into ≢ from }
        ensures melded { self.new
            ≡ with_list (with_list self.old from set.empty) into (set.union (list_of self.old into) (list_of self.old from)) }
        ensures comparisons { Compares (digits (set.len (list_of self.old into) + set.len (list_of self.old from))) meter.old meter.new }
    {
        let first = self.heads[into.index];
        let second = self.heads[from.index];
        let heap = merge(&mut self.nodes, meter, first, second);
        self.heads[from.index] = NOWHERE;
        self.heads[into.index] = heap;
    }

    /// Merges heap `from` into the main one and leaves it empty.
    pub fn meld_main(&mut self, meter: &mut Meter, from: HeapId)
        requires { from < length self.old.lists }
        ensures melded { self.new
            ≡ record (with_list self.old from set.empty) { main = set.union self.old.main (list_of self.old from) } }
        ensures comparisons { Compares (digits (set.len self.old.main + set.len (list_of self.old from))) meter.old meter.new }
    {
        let index = from.index;
        let head = self.heads[index];
        self.main.add_all(&mut self.nodes, meter, head);
        self.heads[index] = NOWHERE;
    }

    /// The first key of heap h, which stays there.
    pub fn least(&self, meter: &mut Meter, h: HeapId) -> Option<Key>
        requires { h < length self.now.lists }
        ensures first { MatchOption result (list_of self.now h ≡ set.empty) (IsFirst (list_of self.now h)) }
        ensures comparisons { Compares (digits (set.len (list_of self.now h))) meter.old meter.new }
    {
        let head = self.heads[h.index];
        if head == NOWHERE {
            return None;
        }
        let at = least_root(&self.nodes, meter, head);
        Some(self.nodes[at as usize].key)
    }

    /// Takes the first key out of heap h.
    pub fn pop(&mut self, meter: &mut Meter, h: HeapId) -> Option<Key>
        requires { h < length self.old.lists }
        ensures popped { MatchOption result ((list_of self.old h ≡ set.empty) × (self.new ≡ self.old))
            (λ k. IsFirst (list_of self.old h) k
            × (self.new ≡ record (with_list self.old h (set.remove (list_of self.old h) k)) { spare = self.old.spare + 1 })) }
        ensures comparisons { Compares (2 * digits (set.len (list_of self.old h))) meter.old meter.new }
    {
        let index = h.index;
        let head = self.heads[index];
        if head == NOWHERE {
            return None;
        }
        let at = least_root(&self.nodes, meter, head);
        let key = self.nodes[at as usize].key;
        let heap = take(&mut self.nodes, meter, head, at, at);
        self.heads[index] = heap;
        self.room += 1;
        Some(key)
    }

    /// Takes the first key out of the main heap.
    pub fn pop_main(&mut self, meter: &mut Meter) -> Option<Key>
        ensures popped { MatchOption result ((self.old.main ≡ set.empty) × (self.new ≡ self.old))
            (λ k. IsFirst self.old.main k
            × (self.new ≡ record self.old { main = set.remove self.old.main k; spare = self.old.spare + 1 })) }
        ensures comparisons { Compares (2 * digits (set.len self.old.main)) meter.old meter.new }
    {
        if self.main.is_empty() {
            return None;
        }
        let at = take_first(&mut self.nodes, meter, &mut self.main);
        self.room += 1;
        Some(self.nodes[at as usize].key)
    }

    /// Takes the key of this task out of heap h. Where it isn't there no keys are compared.
    pub fn remove(&mut self, meter: &mut Meter, h: HeapId, task: u32) -> Option<Key>
        requires { h < length self.old.lists }
        ensures removed { MatchOption result (HasNone (list_of self.old h) task × (self.new ≡ self.old))
            (λ k. (set.contains (list_of self.old h) k ≡ true) × (k.task ≡ task)
            × (self.new ≡ record (with_list self.old h (other_keys (list_of self.old h) task)) { spare = self.old.spare + 1 })) }
        ensures once { EachTaskOnce (all_lists self.old) }
        ensures unfound { IfNone result (meter.new ≡ meter.old) }
        ensures comparisons { Compares (2 * digits (set.len (list_of self.old h))) meter.old meter.new }
    {
        if !self.holds(task) {
            return None;
        }
        let index = h.index;
        let head = self.heads[index];
        let root = top(&self.nodes, task as u16);
        if !has_root(&self.nodes, head, root) {
            return None;
        }
        let key = self.nodes[task as usize].key;
        let heap = take(&mut self.nodes, meter, head, root, task as u16);
        self.heads[index] = heap;
        self.room += 1;
        Some(key)
    }

    /// Takes the key of this task out of the main heap. Where it isn't there no keys are compared.
    pub fn remove_main(&mut self, meter: &mut Meter, task: u32) -> Option<Key>
        ensures removed { MatchOption result (HasNone self.old.main task × (self.new ≡ self.old))
            (λ k. (set.contains self.old.main k ≡ true) × (k.task ≡ task)
            × (self.new ≡ record self.old { main = other_keys self.old.main task; spare = self.old.spare + 1 })) }
        ensures once { EachTaskOnce (all_lists self.old) }
        ensures unfound { IfNone result (meter.new ≡ meter.old) }
        ensures comparisons { Compares (2 * digits (set.len self.old.main)) meter.old meter.new }
    {
        if !self.holds(task) {
            return None;
        }
        let root = top(&self.nodes, task as u16);
        let rank = self.nodes[root as usize].rank as u32;
        if !self.main.has_root(rank, root) {
            return None;
        }
        let key = self.nodes[task as usize].key;
        take_from(
            &mut self.nodes,
            meter,
            &mut self.main,
            rank,
            root,
            task as u16,
        );
        self.room += 1;
        Some(key)
    }
}
