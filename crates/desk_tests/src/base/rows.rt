//! Rows, placed, copied and kept, though memory may be refused. A call that was refused is made again, and says so.

ghost use Rattle.std.specs.Prelude.{◌≡◌, ◌≤◌, ◌<◌, ◌+◌, ◌^◌};
ghost use Rattle.pf_place.specs.Occupancy.{idle_row};

use crate::base::refused::say;
use pf_order::pick::Pick;
use pf_place::row::{Row, idle, place};
use pf_place::rows::Rows;
use std::alloc::{AllocError, Global};
use std::process::Abort;

const FIVE: Pick = Pick { task: 5, sub: 1 };

/// The row of two idle processors, again where memory is refused.
fn idle_again(rt: &(impl Abort + Print), alloc: Global) -> Row
    ensures { result ≡ idle_row 2 }
{
    match idle(alloc, 2) {
        Ok(row) => row,
        Err(AllocError) => {
            say(rt, "idle");
            idle(alloc, 2).expect(rt, "memory is ample")
        }
    }
}

/// A pick on the one processor of the two that is in use, again where memory is refused.
fn place_again(rt: &(impl Abort + Print), alloc: Global, before: &Row) -> Row
    requires { before.now ≡ idle_row 2 }
{
    match place(alloc, 2, 1, before, &[FIVE]) {
        Ok(row) => row,
        Err(AllocError) => {
            say(rt, "place");
            place(alloc, 2, 1, before, &[FIVE]).expect(rt, "memory is ample")
        }
    }
}

/// A copy of the row, again where memory is refused.
fn copy_again(rt: &(impl Abort + Print), row: &Row) -> Row {
    match row.copy() {
        Ok(copy) => copy,
        Err(AllocError) => {
            say(rt, "Row::copy");
            row.copy().expect(rt, "memory is ample")
        }
    }
}

/// A copy of the placed row.
fn placed(rt: &(impl Abort + Print), alloc: Global) -> Row {
    let before = idle_again(rt, alloc);
    let row = place_again(rt, alloc, &before);
    copy_again(rt, &row)
}

/// Appends the row, again where memory is refused.
fn push_again(rt: &(impl Abort + Print), rows: &mut Rows, row: &Row) {
    match rows.push(row) {
        Ok(()) => (),
        Err(AllocError) => {
            say(rt, "Rows::push");
            rows.push(row).expect(rt, "memory is ample")
        }
    }
}

/// The row in each of 512 slots: two full blocks.
fn many(rt: &(impl Abort + Print), alloc: Global, row: &Row) -> Rows {
    let mut rows = Rows::new(alloc);
    for _ in 0..512 {
        push_again(rt, &mut rows, row);
    }
    rows
}

/// Equal rows, again where memory is refused.
fn copy_all_again(rt: &(impl Abort + Print), rows: &Rows) -> Rows {
    match rows.copy() {
        Ok(copy) => copy,
        Err(AllocError) => {
            say(rt, "Rows::copy");
            rows.copy().expect(rt, "memory is ample")
        }
    }
}

/// Who sits in a copy of the placed row, and how many rows there are in a copy of many.
fn copied(rt: &(impl Abort + AllocGlobal + Print)) -> ([Option<Pick>; 2], usize) {
    let row = placed(rt, rt.alloc());
    let rows = many(rt, rt.alloc(), &row);
    ([row.get(0), row.get(1)], copy_all_again(rt, &rows).len())
}

/// Full blocks are shared: a copy of the rows asks for the two pieces of the last one alone.
#[test]
fn rows_are_placed_pushed_and_copied_again(rt: HostRuntime) {
    assert_eq!(rt; copied(&rt), ([Some(FIVE), None], 512));
}

/// The subtask that runs in slot t of the rows.
fn nth(t: u32) -> Pick
    requires { t + 1 < 2 ^ 32 }
    ensures { 1 ≤ result.task }
{
    Pick {
        task: 5,
        sub: t + 1,
    }
}

/// The row of one processor on which the pick runs.
fn row_of(rt: &impl Abort, alloc: Global, pick: Pick) -> Row
    requires { 1 ≤ pick.task }
{
    let before = idle(alloc, 1).expect(rt, "memory is ample");
    place(alloc, 1, 1, &before, &[pick]).expect(rt, "memory is ample")
}

/// Rows of so many slots, of one processor on which another subtask runs in each.
fn rows_of(rt: &impl Abort, alloc: Global, count: u32) -> Rows {
    let mut rows = Rows::new(alloc);
    for t in 0..count {
        let row = row_of(rt, alloc, nth(t));
        rows.push(&row).expect(rt, "memory is ample");
    }
    rows
}

/// Who runs in slot t, where it has a row.
fn who(rows: &Rows, t: u32) -> Option<Option<Pick>> {
    let row = rows.get(u64::from(t))?;
    Some(row.get(0))
}

/// Fails where these are not the rows of so many slots.
fn are_rows(rt: &impl Abort, rows: &Rows, count: u32) {
    assert_eq!(rt; rows.len(), count as usize);
    for t in 0..count {
        assert_eq!(rt; who(rows, t), Some(Some(nth(t))));
    }
    assert_eq!(rt; who(rows, count), None);
}

/// Each slot of the rows and of their copy has its row, the first and the last ones too, and the slot behind them has none.
#[test]
fn rows_of_many_lengths(rt: HostRuntime) {
    for count in [255, 256, 257, 513] {
        let rows = rows_of(&rt, rt.alloc(), count);
        let copy = rows.copy().expect(&rt, "memory is ample");
        are_rows(&rt, &rows, count);
        are_rows(&rt, &copy, count);
    }
}
