//! A step that is made ready, and then committed.
ghost use Rattle.std.specs.Prelude.{◌≤◌};
ghost use Rattle.pf_desk.specs.Desk.{IsReadyFor};

use crate::asked::prepare;
use crate::plan::open;
use pf_desk::desk::Desk;
use pf_desk::prepared::Prepared;
use pf_desk::reply_view::ReplyView;
use pf_desk::snapshot::Snapshot;
use pf_order::pick::Pick;
use pf_scenario::settings::Settings;
use std::process::Abort;

/// A slot that was taken: how many processors its row has, and who runs on the first.
type Taken = (u64, usize, Option<Pick>);

/// Slot 0, with its one processor idle.
const IDLE: Taken = (0, 1, None);

/// The slot that was taken, where one was.
fn taken(reply: ReplyView<'_>) -> Option<Taken> {
    match reply {
        ReplyView::Stepped { slot, row } => Some((slot, row.processors(), row.get(0))),
        _ => None,
    }
}

/// The slot that the desk's last entry took.
fn last_taken(desk: &Desk) -> Option<Taken> {
    let entry = desk.history().last()?;
    taken(entry.reply)
}

/// The first slot that the snapshot shows.
fn first_seen(seen: &Snapshot) -> Option<Taken> {
    let row = seen.row(0)?;
    Some((0, row.processors(), row.get(0)))
}

/// Fails where the snapshot is not that of one entry and one slot, with its one processor idle.
fn is_first(rt: &impl Abort, seen: &Snapshot) {
    assert_eq!(rt; seen.version(), 1);
    assert_eq!(rt; seen.now(), 1);
    assert_eq!(rt; first_seen(seen), Some(IDLE));
}

/// Fails where the desk has not so many entries, each a step that took a slot.
fn has_steps(rt: &impl Abort, desk: &Desk, count: usize) {
    assert_eq!(rt; desk.history().len(), count);
    assert_eq!(rt; desk.now(), count as u64);
    assert_eq!(rt; desk.schedule().len(), count);
}

/// Commits what is ready, which answers as was foretold.
fn commit(rt: &impl Abort, desk: &mut Desk, prepared: Prepared)
    requires ready { IsReadyFor desk.old prepared }
    requires room { 1 ≤ desk.old.spare }
{
    let reply = desk.commit(prepared);
    assert_eq!(rt; taken(reply.view()), Some(IDLE));
}

/// The desk is as it was until the step is committed.
fn is_prepared_then_committed(rt: &impl Abort, desk: &mut Desk) {
    let prepared = prepare(desk).expect(rt, "memory is ample");
    assert_eq!(rt; taken(prepared.reply().view()), Some(IDLE));
    is_first(rt, prepared.snapshot());
    has_steps(rt, desk, 0);
    commit(rt, desk, prepared);
    has_steps(rt, desk, 1);
    assert_eq!(rt; last_taken(desk), Some(IDLE));
}

#[test]
fn prepared_then_committed(rt: HostRuntime) {
    let settings = Settings::new(1, 1, 1).expect(&rt, "settings");
    let mut desk = open(rt.alloc(), settings).expect(&rt, "it is opened");
    is_prepared_then_committed(&rt, &mut desk);
}
