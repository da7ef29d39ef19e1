ghost use Rattle.std.specs.Prelude.{◌≡◌, ◌==◌, ◌<◌, ◌≤◌, ◌-◌, ◌^◌, [], ◌∷◌, ◌++◌, length, IfOk, OnOk, OnErr};
ghost use Rattle.std.specs.List.{All, slice_get};
ghost use Rattle.std.specs.List.Sorted.{IsPermutation};
ghost use Rattle.pf_place.specs.Blocks.{all_rows_of, HasRoomFor};
ghost use Rattle.pf_place.specs.Filed.{AreFiled};
ghost use Rattle.pf_place.specs.Lent.{places_lent, lent_row};
ghost use Rattle.pf_place.specs.Occupancy.{sitters, row_of, idle_row};
ghost use Rattle.pf_place.specs.RunRows.{last_row, but_last, row_before};
ghost use Rattle.pf_place.specs.Turns.{IsTurn, IsRow};

use crate::block::Block;
use crate::closed_block::ClosedBlock;
use crate::row::Row;
use crate::row_view::RowView;
use pf_collections::list::shared_list::SharedList;
use pf_order::pick::Pick;
use std::alloc::{AllocError, Global};
use std::marker::Model;

/// How many rows a full block has.
const BLOCK: usize = 64;

/// The most full blocks, so that the rows can be counted: far beyond what a memory holds.
const MOST_BLOCKS: usize = 0x40_0000_0000_0000;

/// The rows of the slots from 0 on. Copies share the blocks of 64 rows that are full: a copy costs the same however many
/// rows there are.
#[derive(Debug)]
pub struct Rows {
    full: SharedList<ClosedBlock>,
    last: Block,
}

// A call of its own, so that who drops rows sees none of their blocks.
impl Drop for Rows {
    fn drop(self) {
        let Rows { full: _, last: _ } = self;
    }
}

impl Model for Rows {
    ghost use Rattle.std.specs.Prelude.{◌++◌, List, Option};
    ghost use Rattle.pf_order.specs.declared.pick.Pick.{Pick};
    ghost use Rattle.pf_place.specs.Blocks.{all_rows_of};
    ghost use Rattle.pf_place.specs.Filed.{AreFiled};

    ghost Value = { List (List (Option Pick)) };

    ghost view = { λ rows. all_rows_of rows.full ++ rows.last.rows };

    ghost invariant = { λ rows. AreFiled rows.full rows.last };
}

impl Rows {
    /// No rows.
    pub fn new(alloc: Global) -> Self
        ensures { result ≡ [] }
    {
        Rows {
            full: SharedList::new(alloc),
            last: Block::new(alloc),
        }
    }

    /// Appends a row, the row of the next slot.
    ///
    /// # Errors
    ///
    /// Where memory is refused: the rows are as before.
    pub fn push(&mut self, row: &Row) -> Result<(), AllocError>
        ensures ok { OnOk result (self.new ≡ self.old ++ row.now ∷ []) }
        ensures err { OnErr result (self.new ≡ self.old) }
    {
        self.append_idle(row.processors())?;
        self.last.assign_last(row.view());
        Ok(())
    }

    /// Appends the idle row of m processors, for `seat_last` to seat picks in it or `pop` to take it off, both of which
    /// take no memory.
    ///
    /// # Errors
    ///
    /// Where memory is refused: the rows are as before.
    pub fn push_idle(&mut self, m: u32) -> Result<(), AllocError>
        ensures ok { OnOk result (self.new ≡ self.old ++ idle_row m ∷ []) }
        ensures err { OnErr result (self.new ≡ self.old) }
    {
        self.append_idle(m as usize)
    }

    /// Appends the idle row of m processors, as `push_idle` does, to rows that grow beside others. Where both have the same
    /// full blocks, memory has these once.
    ///
    /// # Errors
    ///
    /// Where memory is refused: the rows are as before.
    pub fn push_idle_beside(&mut self, m: u32, others: &Rows) -> Result<(), AllocError>
        ensures ok { OnOk result (self.new ≡ self.old ++ idle_row m ∷ []) }
        ensures err { OnErr result (self.new ≡ self.old) }
    {
        if self.last.len() == BLOCK {
            share_last(&mut self.full, &others.full);
        }
        self.push_idle(m)
    }

    /// Appends the idle row of m processors. A block that is full is closed here and not when it gets full, and only once
    /// the row has its room, so that the last row is always in the last block.
    fn append_idle(&mut self, m: usize) -> Result<(), AllocError>
        ensures ok { OnOk result (self.new ≡ self.old ++ idle_row m ∷ []) }
        ensures err { OnErr result (self.new ≡ self.old) }
    {
        if self.last.len() < BLOCK {
            return self.last.push_idle(m);
        }
        if self.full.len() >= MOST_BLOCKS {
            return Err(AllocError);
        }
        self.last.reserve_anew(m)?;
        self.full.push(ClosedBlock::of(&self.last)?)?;
        self.last.begin_anew(m);
        Ok(())
    }

    /// Takes the last row off, where there is one; it takes no memory.
    pub fn pop(&mut self)
        ensures { self.new ≡ but_last self.old }
    {
        if self.last.len() == 0 {
            return;
        }
        self.last.pop();
        if self.last.len() == 0 {
            reopen(&mut self.full, &mut self.last);
        }
    }

    /// Puts another row of as many places in place of the last one; it takes no memory.
    ///
    /// There must be a row.
    pub fn assign_last(&mut self, row: RowView<'_>)
        requires some { 0 < length self.old }
        requires long { length (lent_row row) ≡ length (last_row [] self.old) }
        ensures { self.new ≡ but_last self.old ++ lent_row row.entry ∷ [] }
    {
        self.last.assign_last(row);
    }

    /// Makes the last row the row of a slot in which `picks` run on the processors below `count`, as `place` does:
    /// after the row before it, or an idle one where it is the only row. It takes no memory.
    ///
    /// There must be a row. Its processors are m: `count` must be at most m, the row before it of m processors, and the
    /// picks at most `count`, with tasks numbered from 1; neither the picks nor the row before may have a task twice.
    pub fn seat_last(&mut self, count: u32, picks: &[Pick])
        requires some { 0 < length self.old }
        requires turn { IsTurn (length (last_row [] self.old)) count picks.now }
        requires numbered { All (λ pick. 1 ≤ pick.task) picks.now }
        requires before { IsRow (length (last_row [] self.old)) (row_before self.old) }
        ensures rows { self.new ≡ but_last self.old
            ++ row_of (length (last_row [] self.old)) count (row_before self.old) picks.now ∷ [] }

        // Each pick sits on one place of it, and nobody else sits; so the next row can be placed from it.
        ensures seated { IsPermutation picks.now (sitters (last_row [] self.new)) }
        ensures row { IsRow (length (last_row [] self.old)) (last_row [] self.new) }
    {
        let above = last_row(&self.full);
        self.last.seat_last(above, count as usize, picks);
    }

    /// How many slots have a row.
    pub fn len(&self) -> usize
        ensures { result ≡ length self.now }
    {
        self.full.len() * BLOCK + self.last.len()
    }

    /// Whether no slot has a row.
    pub fn is_empty(&self) -> bool
        ensures { result ≡ (length self.now == 0) }
    {
        self.len() == 0
    }

    /// The row of slot t, where there is one.
    pub fn get(&self, t: u64) -> Option<RowView<'_>>
        ensures { places_lent result ≡ slice_get self.now t }
    {
        let t = t as usize;
        match self.full.get(t / BLOCK) {
            Some(block) => block.row(t % BLOCK),
            None => self.last.row(t - self.full.len() * BLOCK),
        }
    }

    /// The row of the last slot, where there is one.
    pub fn last(&self) -> Option<RowView<'_>>
        ensures { places_lent result ≡ slice_get self.now (length self.now - 1) }
    {
        let last = self.len().checked_sub(1)?;
        self.get(last as u64)
    }

    /// Equal rows, which share the full blocks with these.
    ///
    /// # Errors
    ///
    /// Where memory is refused.
    pub fn copy(&self) -> Result<Self, AllocError>
        ensures { IfOk result (λ rows. rows ≡ self.now) }
    {
        let last = self.last.copy()?;
        let full = self.full.copy()?;
        Ok(Rows { full, last })
    }
}

/// Puts the last full block, where there is one, in place of the last block, which has no rows; it takes no memory.
fn reopen(full: &mut SharedList<ClosedBlock>, last: &mut Block)
    requires whole { All (λ rows. length rows ≡ 64) full.old }
    requires few { length full.old ≤ 2 ^ 54 }
    requires room { All (HasRoomFor last.old) full.old }
    requires empty { length last.old.rows ≡ 0 }
    ensures filed { AreFiled full.new last.new }
    ensures same { all_rows_of full.new ++ last.new.rows ≡ all_rows_of full.old }
{
    if let Some(block) = full.last() {
        block.open_on(last);
        full.pop();
    }
}

/// The last row of these blocks; one of no places where there are none.
fn last_row(full: &SharedList<ClosedBlock>) -> RowView<'_>
    requires { All (λ rows. length rows ≡ 64) full.now }
    ensures { lent_row result ≡ last_row [] (all_rows_of full.entry.now) }
{
    match full.last() {
        None => RowView::of(&[]),
        Some(block) => match block.row(BLOCK - 1) {
            Some(row) => row,
            None => unreachable!(),
        },
    }
}

/// Lets these rows share the last full block with the others, where they are known to have the same there.
fn share_last(full: &mut SharedList<ClosedBlock>, others: &SharedList<ClosedBlock>)
    ensures { full.new ≡ full.old }
{
    let Some(k) = full.len().checked_sub(1) else {
        return;
    };
    let same = match (full.get(k), others.get(k)) {
        (Some(block), Some(other)) => block.equals(other),
        _ => false,
    };
    if same {
        full.share_last(others);
    }
}
