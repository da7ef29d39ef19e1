ghost use Rattle.std.specs.Prelude.{◌≡◌, ◌≤◌, ◌^◌, length};
ghost use Rattle.pf_picture.specs.Picture.{end_of_blocks};

use crate::drawing::Drawing;
use crate::grid::block_front;
use crate::in_rows::block_height;
use crate::rows_left::{RowsLeft, next_row};
use crate::scale::Scale;
use crate::task_drawings::TaskDrawings;
use pf_desk::snapshot::Snapshot;
use pf_text::pieces::Pieces;
use std::alloc::{AllocError, Global};
use std::marker::Model;

/// The blocks that are left of a picture: what is left of the one that was begun, and those below it.
#[derive(Drop)]
pub struct Blocks<'a> {
    snapshot: &'a Snapshot,
    /// That of the whole picture.
    scale: Scale,
    /// How many slots stand side by side.
    wrap: u64,
    drawings: TaskDrawings,
    /// Of each slot below now, how many processors are in use in it.
    counts: Vec<u64>,
    /// The first block that is not done.
    block: u64,
    /// How far it lies below the picture's top.
    offset: u128,
    /// What is left of it, if it was begun.
    begun: Option<RowsLeft>,
}

impl<'a> Model for Blocks<'a> {
    ghost use Rattle.std.specs.Prelude.{ℕ, List, ◌≡◌, ◌≤◌, ◌*◌, ◌+◌, ◌^◌, length};
    ghost use Rattle.pf_courses.specs.Listing.{counts_of};
    ghost use Rattle.pf_picture.specs.Left.{AreBlocks, blocks_left};

    ghost Value = { List ℕ };

    ghost view = { λ b. blocks_left b.snapshot.now b.scale b.wrap b.drawings b.block b.offset b.begun };

    ghost invariant = { λ b.
        (b.counts.items ≡ counts_of b.snapshot.now.state.plan b.snapshot.now.state.now b.snapshot.now.rows) × (b.scale.to ≤ length b.snapshot.now.rows)
        × AreBlocks b.scale b.wrap b.drawings b.block b.offset b.begun };
}

impl<'a> Blocks<'a> {
    ghost use Rattle.std.specs.Prelude.{◌≡◌, ◌≤◌, length};
    ghost use Rattle.pf_courses.specs.Listing.{counts_of};
    ghost use Rattle.pf_picture.specs.Picture.{all_blocks, blocks_from};

    /// All of them, of so many slots at most, where so many processors are in use in each slot.
    pub(crate) fn new(
        snapshot: &'a Snapshot,
        scale: Scale,
        wrap: u64,
        drawings: TaskDrawings,
        counts: Vec<u64>,
    ) -> Self
        requires counts { counts.items ≡ counts_of snapshot.now.state.plan snapshot.now.state.now snapshot.now.rows }
        requires within { scale.to ≤ length snapshot.now.rows }
        requires some { 1 ≤ wrap }
        requires most { wrap ≤ 4096 }
        requires few { length drawings.shown ≤ 4095 }
        ensures { result ≡ blocks_from snapshot.now scale wrap drawings 24 (all_blocks scale wrap) }
    {
        Blocks {
            snapshot,
            scale,
            wrap,
            drawings,
            counts,
            block: 0,
            offset: 24,
            begun: None,
        }
    }
}

impl<'a> Pieces for Blocks<'a> {
    ghost left = { λ b. b };

    ghost outcome = { λ _. tt };

    fn next_piece(&mut self, alloc: Global) -> Result<Option<Vec<u8>>, AllocError> {
        match self.begun {
            Some(rows) => {
                let scale = self.scale.block(self.wrap, self.block);
                match next_row(
                    alloc,
                    self.snapshot,
                    scale,
                    &self.drawings,
                    &self.counts,
                    rows,
                )? {
                    Some(row) => {
                        self.begun = Some(row.left);
                        Ok(Some(row.text))
                    }
                    None => {
                        let text = Vec::from_slice(alloc, b"</g>\n")?;
                        self.offset += block_height(scale, self.drawings.shown());
                        self.block += 1;
                        self.begun = None;
                        Ok(Some(text))
                    }
                }
            }
            None => {
                if self.block >= self.scale.blocks(self.wrap) {
                    return Ok(None);
                }
                let scale = self.scale.block(self.wrap, self.block);
                let height = block_height(scale, self.drawings.shown());
                let text = block_front(alloc, scale, self.offset, height)?;
                self.begun = Some(RowsLeft {
                    processor: 0,
                    place: 0,
                    top: scale.first_top(),
                });
                Ok(Some(text))
            }
        }
    }
}

/// Where all blocks of so many slots at most end.
pub(crate) fn end_of_blocks(scale: Scale, wrap: u64, drawings: &[Drawing]) -> u128
    requires some { 1 ≤ wrap }
    requires most { wrap ≤ 4096 }
    requires few { length drawings.now ≤ 4095 }
    ensures value { result ≡ end_of_blocks scale wrap drawings.now }
    ensures short { result ≤ 2 ^ 100 }
{
    let mut end = 24;
    for block in 0..scale.blocks(wrap) {
        end += block_height(scale.block(wrap, block), drawings);
    }
    end
}
