//! A snapshot stays as it was read, though a slot in its past is edited.

use crate::plan::{is_applied, is_stepped, join, open, plain};
use pf_desk::desk::Desk;
use pf_desk::snapshot::Snapshot;
use pf_order::pick::Pick;
use pf_place::rows::Rows;
use pf_scenario::change::Change;
use pf_scenario::event::Event;
use pf_scenario::settings::Settings;
use std::process::Abort;

/// The slots that are taken.
const SLOTS: u32 = 300;

/// The first subtask that is held back is that of this slot.
const HELD: u32 = 10;

/// A task of weight 1/1 joins, and all slots are taken.
fn take_all(rt: &impl Abort, desk: &mut Desk) {
    assert!(rt; is_applied(desk, join(0, 1)));
    for _ in 0..SLOTS {
        assert!(rt; is_stepped(desk));
    }
}

/// The task is held back by five slots.
fn hold(rt: &impl Abort, desk: &mut Desk) {
    let delay = Event::Delay {
        slot: u64::from(HELD),
        task: 1,
        by: 5,
    };
    assert!(rt; is_applied(desk, plain(Change::Insert(delay))));
}

/// The task's subtask.
fn runs(sub: u32) -> Option<Pick> {
    Some(Pick { task: 1, sub })
}

/// Who runs in slot t of the first plan: a subtask in each slot.
fn unheld(t: u32) -> Option<Pick> {
    runs(t.saturating_add(1))
}

/// Who runs in slot t where the task is held back: nobody in five slots, and from then on the subtask of five slots before.
fn held(t: u32) -> Option<Pick> {
    match t.checked_sub(HELD) {
        None => unheld(t),
        Some(0..5) => None,
        Some(late) => runs(late.saturating_add(6)),
    }
}

/// Who runs in slot t, where it has a row.
fn who(rows: &Rows, t: u32) -> Option<Option<Pick>> {
    let row = rows.get(u64::from(t))?;
    Some(row.get(0))
}

/// Fails where others run than the first plan has it, or the plan in which the task is held back.
fn has_rows(rt: &impl Abort, rows: &Rows, is_held: bool) {
    assert_eq!(rt; rows.len(), SLOTS as usize);
    for t in 0..SLOTS {
        let wanted = if is_held { held(t) } else { unheld(t) };
        assert_eq!(rt; who(rows, t), Some(wanted), "in slot {t}");
    }
}

/// Fails where the snapshot is not one of so many entries, or shows others.
fn is_seen(rt: &impl Abort, seen: &Snapshot, version: u64, is_held: bool) {
    assert_eq!(rt; seen.version(), version);
    has_rows(rt, seen.rows(), is_held);
}

/// Fails where a snapshot that is read before the edit shows it, or one that is read after it does not.
fn is_seen_before_and_after(rt: &impl Abort, desk: &mut Desk) {
    let before = desk.snapshot().expect(rt, "memory is ample");
    hold(rt, desk);
    is_seen(rt, &before, 301, false);
    has_rows(rt, desk.schedule(), true);
    let after = desk.snapshot().expect(rt, "memory is ample");
    is_seen(rt, &after, 302, true);
    is_seen(rt, &before, 301, false);
}

#[test]
fn a_snapshot_before_an_edit(rt: HostRuntime) {
    let settings = Settings::new(1, 1, 1).expect(&rt, "settings");
    let mut desk = open(rt.alloc(), settings).expect(&rt, "it is opened");
    take_all(&rt, &mut desk);
    is_seen_before_and_after(&rt, &mut desk);
}
