//! The texts of a desk. A call that was refused is made again, and says so.

use crate::asked::snapshot_again;
use crate::plan::{apply_again, overload};
use crate::refused::say;
use pf_chart::chart::chart_pieces;
use pf_desk::command::Command::Step;
use pf_desk::snapshot::Snapshot;
use pf_diff::diff::diff_text;
use pf_picture::picture::picture_pieces;
use pf_report::denials::denials_csv;
use pf_report::json::report_json;
use pf_report::lags::lags_csv;
use pf_report::misses::misses_csv;
use pf_report::schedule::schedule_csv;
use pf_report::script::script_text;
use pf_text::pieces::gathered;
use pf_vocabulary::look::look::Look;
use pf_vocabulary::names::titles::Titles;
use std::alloc::{AllocError, Global};
use std::process::Abort;

/// The calls that give a text.
#[derive(Clone, Copy)]
enum Call {
    Schedule,
    Lags,
    Misses,
    Denials,
    Object,
    Script,
    Diff,
    Chart,
    Picture,
}

/// Their names, and how their texts of two tasks of weight 1/1 on one processor begin.
const CALLS: [(Call, &str, &str); 9] = [
    (
        Call::Schedule,
        "schedule_csv",
        "slot,p0\n0,1/1\n1,2/1\n2,1/2\n3,2/2\n",
    ),
    (
        Call::Lags,
        "lags_csv",
        "task,cost,period,received,lag\n1,1,1,2,2\n2,1,1,2,2\n",
    ),
    (
        Call::Misses,
        "misses_csv",
        "task,sub,deadline,ran\n2,1,1,1\n1,2,2,2\n2,2,2,3\n1,3,3,\n",
    ),
    (Call::Denials, "denials_csv", "slot,event,code,reason\n"),
    (
        Call::Object,
        "report_json",
        "{\"denials\":[],\"entries\":29,\"lags\":[{\"cost\":1,\"lag\":2,",
    ),
    (
        Call::Script,
        "script_text",
        "settings,1,1,2,64\njoin,0,1,1,1,0\njoin,0,2,1,1,0\n",
    ),
    (
        Call::Diff,
        "diff_text",
        "schedule\nslot,processor,before,after\nlags\ntask,before,after\n1,1,2\n",
    ),
    (
        Call::Chart,
        "chart_pieces",
        "slots 0 to 4 of 4; processors 1; base 1; cap 2\n",
    ),
    (Call::Picture, "picture_pieces", "<svg "),
];

/// What differs. A caller that needs no clause of `diff_text` calls this; and so on.
fn diff(alloc: Global, before: &Snapshot, after: &Snapshot) -> Result<Vec<u8>, AllocError> {
    diff_text(alloc, before, after)
}

/// The chart of all slots.
fn chart(alloc: Global, snapshot: &Snapshot, titles: &Titles) -> Result<Vec<u8>, AllocError> {
    gathered(
        alloc,
        chart_pieces(alloc, snapshot, titles, 0, snapshot.now())?,
    )
}

/// The picture of the first slots.
fn picture(alloc: Global, snapshot: &Snapshot, titles: &Titles) -> Result<Vec<u8>, AllocError> {
    let to = snapshot.now().min(4096);
    gathered(
        alloc,
        picture_pieces(alloc, snapshot, titles, 0, to, &Look::usual())?,
    )
}

/// What the call gives of the later snapshot, or of both.
fn text(
    call: Call,
    alloc: Global,
    before: &Snapshot,
    after: &Snapshot,
) -> Result<Vec<u8>, AllocError> {
    let titles = Titles::none(alloc);
    match call {
        Call::Schedule => schedule_csv(alloc, after),
        Call::Lags => lags_csv(alloc, after),
        Call::Misses => misses_csv(alloc, after),
        Call::Denials => denials_csv(alloc, after),
        Call::Object => report_json(alloc, after),
        Call::Script => script_text(alloc, after, 64, &titles),
        Call::Diff => diff(alloc, before, after),
        Call::Chart => chart(alloc, after, &titles),
        Call::Picture => picture(alloc, after, &titles),
    }
}

/// The same, again where memory is refused.
fn text_again(
    rt: &(impl Abort + AllocGlobal + Print),
    call: Call,
    name: &str,
    before: &Snapshot,
    after: &Snapshot,
) -> Vec<u8> {
    match text(call, rt.alloc(), before, after) {
        Ok(text) => text,
        Err(AllocError) => {
            say(rt, name);
            text(call, rt.alloc(), before, after).expect(rt, "memory is ample")
        }
    }
}

/// Fails where a text begins otherwise.
fn tells_again(rt: &(impl Abort + AllocGlobal + Print), before: &Snapshot, after: &Snapshot) {
    for (call, name, front) in CALLS {
        let text = text_again(rt, call, name, before, after);
        assert!(rt; text.starts_with(front.as_bytes()), "{name}");
    }
}

/// The snapshots of a desk before and after a step.
fn snapshots(rt: &(impl Abort + AllocGlobal + Print)) -> (Snapshot, Snapshot) {
    let mut desk = overload(rt, rt.alloc());
    let before = snapshot_again(rt, &desk);
    apply_again(rt, &mut desk, Step);
    (before, snapshot_again(rt, &desk))
}

#[test]
fn texts_are_made_again(rt: HostRuntime) {
    let (before, after) = snapshots(&rt);
    tells_again(&rt, &before, &after);
}
