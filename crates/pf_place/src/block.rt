ghost use Rattle.std.specs.Prelude.{◌≡◌, ◌<◌, ◌≤◌, ◌+◌, ◌-◌, ◌++◌, [], ◌∷◌, true, length, take, slice_range, slice_index, IfOk, IfSome, OnOk, OnErr};
ghost use Rattle.std.specs.List.{All, slice_get};
ghost use Rattle.pf_place.specs.Lent.{places_lent, lent_row};
ghost use Rattle.pf_place.specs.Occupancy.{row_of, idle_row};
ghost use Rattle.pf_place.specs.Packed.{even_ends};
ghost use Rattle.pf_place.specs.RunRows.{last_row, but_last};

use crate::packed_rows::PackedRows;
use crate::place::Place;
use crate::row_view::RowView;
use crate::seating::seat;
use pf_order::pick::Pick;
use std::alloc::{AllocError, Global};
use std::marker::Model;

/// Rows of any lengths, in two pieces of memory: their places one after another, and where each row ends.
#[derive(Debug, Drop)]
pub(crate) struct Block {
    places: Vec<Place>,
    ends: Vec<usize>,
}

impl Model for Block {
    ghost use Rattle.std.specs.Vec.{vec_capacity};
    ghost use Rattle.pf_place.specs.Blocks.{Held, AreCutAt, rows_between};

    ghost Value = { Held };

    ghost view = { λ b. record {
      rows = rows_between 0 b.ends.items b.places.items;
      places_room = vec_capacity b.places;
      rows_room = vec_capacity b.ends;
    } };

    ghost invariant = { λ b. AreCutAt (rows_between 0 b.ends.items b.places.items) b.ends.items b.places.items };
}

impl Block {
    ghost use Rattle.pf_place.specs.Blocks.{KeepsRoom, HasRoomFor};

    /// A block of no rows.
    pub(crate) fn new(alloc: Global) -> Self
        ensures { result.rows ≡ [] }
    {
        Block {
            places: Vec::new(alloc),
            ends: Vec::new(alloc),
        }
    }

    /// A block of no rows with as much room as this one.
    ///
    /// # Errors
    ///
    /// Where memory is refused.
    pub(crate) fn empty_like(&self) -> Result<Self, AllocError>
        ensures rows { IfOk result (λ b. b.rows ≡ []) }
        ensures room { IfOk result (λ b. KeepsRoom self.now b) }
        ensures fits { IfOk result (λ b. HasRoomFor b self.now.rows) }
    {
        let alloc = *self.places.allocator();
        Ok(Block {
            places: Vec::with_capacity(alloc, self.places.capacity())?,
            ends: Vec::with_capacity(alloc, self.ends.capacity())?,
        })
    }

    /// Takes over the rows of another block in place of its own; it takes no memory.
    pub(crate) fn assign(&mut self, other: &Block)
        requires { HasRoomFor self.old other.now.rows }
        ensures rows { self.new.rows ≡ other.now.rows }
        ensures room { KeepsRoom self.old self.new }
    {
        self.places.clear();
        self.ends.clear();
        match self.places.extend_from_slice(&other.places) {
            Ok(()) => {}
            Err(_) => unreachable!(),
        }
        match self.ends.extend_from_slice(&other.ends) {
            Ok(()) => {}
            Err(_) => unreachable!(),
        }
    }

    /// A block of the same rows, with as much room.
    ///
    /// # Errors
    ///
    /// Where memory is refused.
    pub(crate) fn copy(&self) -> Result<Self, AllocError>
        ensures rows { IfOk result (λ b. b.rows ≡ self.now.rows) }
        ensures room { IfOk result (λ b. KeepsRoom self.now b) }
    {
        let mut block = self.empty_like()?;
        block.assign(self);
        Ok(block)
    }

    /// Its rows, packed; none where they aren't of one width, or a place has no small form.
    ///
    /// # Errors
    ///
    /// Where memory is refused.
    pub(crate) fn pack(&self) -> Result<Option<PackedRows>, AllocError>
        ensures { IfOk result (λ packed. IfSome packed (λ rows. rows ≡ self.now.rows)) }
    {
        let width = start_of(&self.ends, self.ends.len().min(1));
        if !end_evenly(&self.ends, width) {
            return Ok(None);
        }
        let alloc = *self.places.allocator();
        PackedRows::of(alloc, self.ends.len(), width, &self.places)
    }

    /// Takes over packed rows in place of its own; it takes no memory.
    pub(crate) fn unpack(&mut self, rows: &PackedRows)
        requires { HasRoomFor self.old rows.now }
        ensures rows { self.new.rows ≡ rows.now }
        ensures room { KeepsRoom self.old self.new }
    {
        self.places.clear();
        self.ends.clear();
        rows.put_places(&mut self.places);
        rows.put_ends(&mut self.ends);
    }

    /// Makes room for the idle row of m processors in place of all rows.
    ///
    /// # Errors
    ///
    /// Where memory is refused.
    pub(crate) fn reserve_anew(&mut self, m: usize) -> Result<(), AllocError>
        ensures rows { self.new.rows ≡ self.old.rows }
        ensures ok { OnOk result (m ≤ self.new.places_room) }
        ensures room { KeepsRoom self.old self.new }
        ensures fits { HasRoomFor self.new self.new.rows }
    {
        self.places.reserve(m.saturating_sub(self.places.len()))
    }

    /// Puts the idle row of m processors in place of all rows; it takes no memory.
    pub(crate) fn begin_anew(&mut self, m: usize)
        requires for_places { m ≤ self.old.places_room }
        requires for_rows { 1 ≤ self.old.rows_room }
        ensures rows { self.new.rows ≡ idle_row m ∷ [] }
        ensures room { KeepsRoom self.old self.new }
    {
        self.places.clear();
        match self.places.resize(m, Place::idle()) {
            Ok(()) => {}
            Err(_) => unreachable!(),
        }
        self.ends.clear();
        self.ends.push_reserved(m);
    }

    /// How many rows it has.
    pub(crate) fn len(&self) -> usize
        ensures { result ≡ length self.now.rows }
    {
        self.ends.len()
    }

    /// The k-th row, where there is one.
    pub(crate) fn row(&self, k: usize) -> Option<RowView<'_>>
        ensures { places_lent result ≡ slice_get self.now.rows k }
    {
        if self.ends.len() <= k {
            return None;
        }
        let start = start_of(&self.ends, k);
        let end = start_of(&self.ends, k + 1);
        Some(row_between(&self.places, start, end))
    }

    /// Appends the idle row of m processors.
    ///
    /// # Errors
    ///
    /// Where memory is refused: the rows are as before.
    pub(crate) fn push_idle(&mut self, m: usize) -> Result<(), AllocError>
        ensures ok { OnOk result (self.new.rows ≡ self.old.rows ++ idle_row m ∷ []) }
        ensures err { OnErr result (self.new.rows ≡ self.old.rows) }
        ensures room { KeepsRoom self.old self.new }
    {
        self.ends.reserve(1)?;
        self.places.reserve(m)?;
        let end = self.places.len() + m;
        match self.places.resize(end, Place::idle()) {
            Ok(()) => {}
            Err(_) => unreachable!(),
        }
        self.ends.push_reserved(end);
        Ok(())
    }

    /// Takes the last row off.
    pub(crate) fn pop(&mut self)
        requires { 0 < length self.old.rows }
        ensures rows { self.new.rows ≡ but_last self.old.rows }
        ensures room { KeepsRoom self.old self.new }
    {
        let last = self.ends.len() - 1;
        let start = start_of(&self.ends, last);
        self.places.truncate(start);
        self.ends.truncate(last);
    }

    /// Puts another row of as many places in place of the last one; it takes no memory.
    pub(crate) fn assign_last(&mut self, row: RowView<'_>)
        requires some { 0 < length self.old.rows }
        requires long { length (lent_row row) ≡ length (last_row [] self.old.rows) }
        ensures rows { self.new.rows ≡ but_last self.old.rows ++ lent_row row.entry ∷ [] }
        ensures room { KeepsRoom self.old self.new }
    {
        let last = self.ends.len() - 1;
        let start = start_of(&self.ends, last);
        assign_from(&mut self.places, start, row);
    }

    /// Makes the last row the one that `picks` place after the row before it, or after `above` where it is the only
    /// one; it takes no memory.
    pub(crate) fn seat_last(&mut self, above: RowView<'_>, count: usize, picks: &[Pick])
        requires some { 0 < length self.old.rows }
        requires in_use { count ≤ length (last_row [] self.old.rows) }
        requires numbered { All (λ pick. 1 ≤ pick.task) picks.now }
        ensures rows { self.new.rows ≡ but_last self.old.rows
            ++ row_of (length (last_row [] self.old.rows)) count (last_row (lent_row above.entry) (but_last self.old.rows)) picks.now ∷ [] }
        ensures room { KeepsRoom self.old self.new }
    {
        let last = self.ends.len() - 1;
        let start = start_of(&self.ends, last);
        if last == 0 {
            seat(&mut self.places, count, above, picks);
        } else {
            let before = start_of(&self.ends, last - 1);
            seat_behind(&mut self.places, before, start, count, picks);
        }
    }
}

/// The row from `start` to `end`.
fn row_between(places: &[Place], start: usize, end: usize) -> RowView<'_>
    requires start { start ≤ end }
    requires end { end ≤ length places.now }
    ensures { lent_row result ≡ slice_range places.now start end }
{
    RowView::of(&places[start..end])
}

/// Where the k-th of the rows begins that end there; after the last row, where that ends.
fn start_of(ends: &[usize], k: usize) -> usize
    requires { k ≤ length ends.now }
    ensures { result ≡ slice_index (0 ∷ ends.now) k }
{
    if k == 0 { 0 } else { ends[k - 1] }
}

/// Puts the row on the places from `start` on.
fn assign_from(places: &mut [Place], start: usize, row: RowView<'_>)
    requires { start + length (lent_row row) ≡ length places.old }
    ensures { places.new ≡ take start places.old ++ lent_row row.entry }
{
    row.copy_to(&mut places[start..]);
}

/// Makes the places from `start` on the row that `picks` place after the row from `before` to `start`.
fn seat_behind(places: &mut [Place], before: usize, start: usize, count: usize, picks: &[Pick])
    requires before { before ≤ start }
    requires start { start ≤ length places.old }
    requires in_use { count ≤ length places.old - start }
    requires numbered { All (λ pick. 1 ≤ pick.task) picks.now }
    ensures { places.new ≡ take start places.old
        ++ row_of (length places.old - start) count (slice_range places.old before start) picks.now }
{
    let (front, last) = places.split_at_mut(start);
    seat_after(last, count, &front[before..], picks);
}

/// Makes these places the row that `picks` place after the row of the places before.
fn seat_after(places: &mut [Place], count: usize, before: &[Place], picks: &[Pick])
    requires in_use { count ≤ length places.old }
    requires numbered { All (λ pick. 1 ≤ pick.task) picks.now }
    ensures { places.new ≡ row_of (length places.old) count before.now picks.now }
{
    seat(places, count, RowView::of(before), picks);
}

/// Whether the rows that end there are all of this width.
fn end_evenly(ends: &[usize], width: usize) -> bool
    ensures { result ≡ true → ends.now ≡ even_ends 0 width (length ends.now) }
{
    let mut start = 0;
    for end in ends {
        match end.checked_sub(start) {
            Some(gap) if gap == width => start = *end,
            _ => return false,
        }
    }
    true
}
