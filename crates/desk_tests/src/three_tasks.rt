//! Edits in the past of a desk on which three tasks of weight 2/3 fill two processors.

use crate::case::{Case, is_edited};
use crate::plan::{apply_each, open_again, plain};
use crate::shown::{Pair, Shown};
use pf_desk::command::Command;
use pf_desk::command::Command::Step;
use pf_desk::desk::Desk;
use pf_scenario::change::Change;
use pf_scenario::event::{Event, Numbered};
use pf_scenario::settings::Settings;
use pf_tally::lag::Lag;
use pf_tally::miss::Miss;
use std::process::Abort;

/// From slot 1 on one processor is in use.
const LIMIT: Event = Event::Limit { slot: 1, count: 1 };

/// Who runs in the three slots.
const FULL: [Pair; 3] = [[(1, 1), (2, 1)], [(1, 2), (3, 1)], [(2, 2), (3, 2)]];

/// Who runs where the third task is struck.
const STRUCK: [Pair; 3] = [[(1, 1), (2, 1)], [(1, 2), (2, 2)], [(0, 0), (0, 0)]];

/// Who runs under the limit.
const LIMITED: [Pair; 3] = [[(1, 1), (2, 1)], [(3, 1), (0, 0)], [(1, 2), (0, 0)]];

/// The task joins in slot 0.
fn join(task: u64) -> Event {
    Event::Join {
        slot: 0,
        task,
        cost: 2,
        period: 3,
        early: 0,
    }
}

/// The task's join, which has the task's number.
fn joined(task: u64) -> Numbered {
    Numbered {
        id: task,
        event: join(task),
    }
}

/// An insert, which is not strict.
fn insert(event: Event) -> Command {
    plain(Change::Insert(event))
}

/// The task's lag after three slots.
fn lag(task: u32, received: u64, scaled: i64) -> Lag {
    Lag {
        task,
        cost: 2,
        period: 3,
        received,
        scaled,
    }
}

/// The window of the task's second subtask, which never ran.
fn miss(task: u32) -> Miss {
    Miss {
        task,
        sub: 2,
        deadline: 3,
        ran: None,
    }
}

/// The three tasks join, and three slots are taken.
fn plan(rt: &(impl Abort + Print), desk: &mut Desk) {
    let joins = [insert(join(1)), insert(join(2)), insert(join(3))];
    apply_each(rt, desk, &joins);
    apply_each(rt, desk, &[Step, Step, Step]);
}

/// What the desk shows then: each task has what it asks for.
fn planned<'a>(events: &'a [Numbered], lags: &'a [Lag]) -> Shown<'a> {
    Shown {
        events,
        next: 4,
        rows: &FULL,
        denials: &[],
        entries: 6,
        lags,
        misses: &[],
    }
}

/// The third task is struck: the other two take its slots.
fn strike(rt: &(impl Abort + Print), desk: &mut Desk) {
    let events = [joined(1), joined(2), joined(3)];
    let lags = [lag(1, 2, 0), lag(2, 2, 0), lag(3, 2, 0)];
    let before = planned(&events, &lags);
    let after = Shown {
        events: &[joined(1), joined(2)],
        rows: &STRUCK,
        entries: 7,
        lags: &[lag(1, 2, 0), lag(2, 2, 0)],
        ..before
    };
    let case = Case {
        name: "Desk::apply(strike)",
        command: plain(Change::Strike(3)),
        before,
        answer: Ok(3),
        after,
    };
    is_edited(rt, desk, case);
}

/// The limit comes: two of the tasks miss a window.
fn limit(rt: &(impl Abort + Print), desk: &mut Desk) {
    let events = [joined(1), joined(2), joined(3)];
    let lags = [lag(1, 2, 0), lag(2, 2, 0), lag(3, 2, 0)];
    let before = planned(&events, &lags);
    let limited = Numbered {
        id: 4,
        event: LIMIT,
    };
    let after = Shown {
        events: &[joined(1), joined(2), joined(3), limited],
        next: 5,
        rows: &LIMITED,
        denials: &[],
        entries: 7,
        lags: &[lag(1, 2, 0), lag(2, 1, 3), lag(3, 1, 3)],
        misses: &[miss(2), miss(3)],
    };
    let case = Case {
        name: "Desk::apply(limit)",
        command: insert(LIMIT),
        before,
        answer: Ok(4),
        after,
    };
    is_edited(rt, desk, case);
}

/// A strike in the past.
pub(crate) fn is_struck(rt: &(impl Abort + AllocGlobal + Print)) {
    let settings = Settings::new(2, 3, 6).expect(rt, "settings");
    let mut desk = open_again(rt, rt.alloc(), settings);
    plan(rt, &mut desk);
    strike(rt, &mut desk);
}

/// A limit in the past.
pub(crate) fn is_limited(rt: &(impl Abort + AllocGlobal + Print)) {
    let settings = Settings::wide(2, 3, 6).expect(rt, "settings");
    let mut desk = open_again(rt, rt.alloc(), settings);
    plan(rt, &mut desk);
    limit(rt, &mut desk);
}
