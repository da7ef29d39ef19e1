//! Answers in short.
ghost use Rattle.std.specs.Prelude.{◌≡◌};

use pf_board::quantum::Quantum;
use pf_board::take::Take;
use pf_desk::history::History;
use pf_desk::reply::Reply;
use pf_desk::reply_view::ReplyView;
use pf_desk::snapshot::Snapshot;
use pf_order::pick::Pick;
use pf_place::row_view::RowView;
use pf_scenario::change::Change;
use pf_scenario::event::Event;
use pf_share::done::Done;
use pf_share::step_refusal::StepRefusal;
use std::alloc::AllocError;
use std::process::Abort;

/// Who runs on the first two processors: the task and the subtask, or (0, 0) where it is idle.
pub(crate) type Pair = [(u32, u32); 2];

/// The slot that was taken, who runs in it, and the number of entries.
pub(crate) type Taken = (u64, Pair, u64);

/// The number of an event, and the number of entries.
pub(crate) type Edited = (u64, u64);

/// The change that lets a task join in slot 0 with the weight cost/period.
pub(crate) fn join(task: u64, cost: u64, period: u64) -> Change {
    Change::Insert(Event::Join {
        slot: 0,
        task,
        cost,
        period,
        early: 0,
    })
}

/// The number of the event that was edited, and the number of entries. None where the change was refused.
pub(crate) fn edited(done: &Done) -> Option<Edited> {
    match &done.reply {
        Reply::Edited { id } => Some((*id, done.front)),
        _ => None,
    }
}

/// Who runs in a row on the first two processors.
fn pair(row: RowView<'_>) -> Pair {
    [named(row.get(0)), named(row.get(1))]
}

/// What was taken. None where the step was refused.
pub(crate) fn stepped(done: &Done) -> Option<Taken> {
    match &done.reply {
        Reply::Stepped { slot, row } => Some((*slot, pair(row.view()), done.front)),
        _ => None,
    }
}

/// Who runs on the first two processors in a slot of the snapshot. None where the slot is not taken.
pub(crate) fn pair_in(snapshot: &Snapshot, slot: u64) -> Option<Pair> {
    let row = snapshot.row(slot)?;
    Some(pair(row))
}

/// The event of this number that the snapshot holds.
pub(crate) fn event_in(snapshot: &Snapshot, id: u64) -> Option<Event> {
    for numbered in snapshot.events() {
        if numbered.id == id {
            return Some(numbered.event);
        }
    }
    None
}

/// The slot that an entry of the history took, and who runs in it. The entries are numbered from 0.
pub(crate) fn pair_of_entry(history: &History, entry: usize) -> Option<(u64, Pair)> {
    match history.entry(entry)?.reply {
        ReplyView::Stepped { slot, row } => Some((slot, pair(row))),
        _ => None,
    }
}

/// The quantum of a slot and a processor that a task's subtask gets.
pub(crate) fn quantum(slot: u64, processor: u32, task: u32, sub: u32) -> Quantum
    ensures { result ≡ record { slot = slot; processor = processor; task = task; sub = sub } }
{
    Quantum {
        slot,
        processor,
        task,
        sub,
    }
}

/// Fails the test where a change was answered otherwise than by the number of its event and the number of entries.
pub(crate) fn expect_edit(
    rt: &impl Abort,
    edited: Result<Option<Edited>, AllocError>,
    wanted: Edited,
) {
    assert_eq!(rt; edited, Ok(Some(wanted)));
}

/// Fails the test where a step was answered otherwise.
pub(crate) fn expect_step(
    rt: &impl Abort,
    stepped: Result<Option<Taken>, StepRefusal>,
    wanted: Result<Taken, StepRefusal>,
) {
    assert_eq!(rt; stepped, wanted.map(Some));
}

/// Fails the test where something else was got of a processor.
pub(crate) fn expect_take(rt: &impl Abort, take: Take, wanted: Take) {
    assert_eq!(rt; take, wanted);
}

/// Fails the test where these are not the subtasks from 1 to `count`, each once.
pub(crate) fn expect_each_once(rt: &impl Abort, mut subs: Vec<u32>, count: u32) {
    subs.sort().expect(rt, "memory is ample");
    assert_eq!(rt; subs.len(), count as usize);
    for at in 0..subs.len() {
        assert_eq!(rt; subs[at] as usize, at + 1);
    }
}

/// The numbers of a pick.
fn named(pick: Option<Pick>) -> (u32, u32) {
    match pick {
        Some(Pick { task, sub }) => (task, sub),
        None => (0, 0),
    }
}
