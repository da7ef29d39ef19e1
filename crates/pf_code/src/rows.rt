ghost use Rattle.std.specs.Prelude.{◌≡◌, ◌++◌, [], OnOk};
ghost use Rattle.pf_place.specs.Lent.{lent_row};
ghost use Rattle.pf_code.specs.Array.{row_text, seat_with};

use pf_desk::rows::row_at;
use pf_desk::snapshot::Snapshot;
use pf_order::pick::Pick;
use pf_place::row_view::RowView;
use pf_text::numbers::push_number;
use pf_text::pieces::{LONG_PIECE, Pieces};
use std::alloc::{AllocError, Global};
use std::marker::Model;

/// Appends what stands for a processor in a row: the task that sits on it, 0 for nobody.
fn push_seat(text: &mut Vec<u8>, processor: u32, sitter: Option<Pick>) -> Result<(), AllocError>
    ensures { OnOk result (text.new.items ≡ text.old.items ++ seat_with processor sitter) }
{
    let task = match sitter {
        Some(pick) => u64::from(pick.task),
        None => 0,
    };
    let before: &[u8] = if processor == 0 { b"    {" } else { b", " };
    text.extend_from_slice(before)?;
    push_number(text, task)
}

/// Appends the line of a row.
fn push_row(text: &mut Vec<u8>, processors: u32, row: RowView<'_>) -> Result<(), AllocError>
    ensures { OnOk result (text.new.items ≡ text.old.items ++ row_text processors (lent_row row.entry)) }
{
    for processor in 0..processors {
        push_seat(text, processor, row.get(processor))?;
    }
    text.extend_from_slice(b"},\n")
}

/// Appends the line of a row with nobody in it.
pub(crate) fn push_nobody(text: &mut Vec<u8>, processors: u32) -> Result<(), AllocError>
    ensures { OnOk result (text.new.items ≡ text.old.items ++ row_text processors []) }
{
    for processor in 0..processors {
        push_seat(text, processor, None)?;
    }
    text.extend_from_slice(b"},\n")
}

/// The lines of a schedule's rows, of the slots from one on and below another.
#[derive(Drop)]
pub struct RowLines<'a> {
    snapshot: &'a Snapshot,
    /// The first slot that is left.
    at: u64,
    /// The slot at which they end.
    to: u64,
}

impl<'a> Model for RowLines<'a> {
    ghost use Rattle.std.specs.Prelude.{ℕ, List, ◌≤◌, length};
    ghost use Rattle.std.specs.List.{flat_map};
    ghost use Rattle.pf_code.specs.Array.{row_text, rows_between};

    ghost Value = { List ℕ };

    ghost view = { λ r. flat_map (row_text r.snapshot.now.state.plan.settings.processors) (rows_between r.snapshot.now r.at r.to) };

    ghost invariant = { λ r. (r.at ≤ r.to) × (r.to ≤ length r.snapshot.now.rows) };
}

impl<'a> RowLines<'a> {
    ghost use Rattle.std.specs.Prelude.{◌≡◌, ◌-◌, ◌≤◌, length};
    ghost use Rattle.std.specs.List.{flat_map};
    ghost use Rattle.pf_code.specs.Array.{row_text, rows_between};

    /// Those of the slots from `from` on and below `to`.
    pub(crate) fn of(snapshot: &'a Snapshot, from: u64, to: u64) -> Self
        requires order { from ≤ to }
        requires within { to ≤ snapshot.now.state.now }
        ensures text { result ≡ flat_map (row_text snapshot.now.state.plan.settings.processors) (rows_between snapshot.now from to) }
        ensures long { length (rows_between snapshot.now from to) ≡ to - from }
    {
        let now = snapshot.now();
        prove!(to <= now);
        RowLines {
            snapshot,
            at: from,
            to,
        }
    }
}

impl<'a> Pieces for RowLines<'a> {
    ghost left = { λ r. r };

    ghost outcome = { λ _. tt };

    fn next_piece(&mut self, alloc: Global) -> Result<Option<Vec<u8>>, AllocError> {
        let snapshot = self.snapshot;
        let processors = snapshot.settings().processors();
        let to = self.to;
        if self.at >= to {
            return Ok(None);
        }
        let mut text = Vec::with_capacity(alloc, LONG_PIECE)?;
        let mut at = self.at;
        while at < to && (at == self.at || text.len() < LONG_PIECE) {
            push_row(&mut text, processors, row_at(snapshot, at))?;
            at += 1;
        }
        self.at = at;
        Ok(Some(text))
    }
}
