//! A delay in the past of a task that leaves just in time: strict, and not.

use crate::case::{Case, is_edited};
use crate::plan::{apply_again, apply_each, open_again, plain};
use crate::shown::{Pair, Shown};
use pf_admit::denial::Denial;
use pf_desk::command::Command;
use pf_desk::command::Command::Step;
use pf_desk::desk::Desk;
use pf_desk::reply::Fault;
use pf_run::denied::Denied;
use pf_scenario::change::Change;
use pf_scenario::event::{Event, Numbered};
use pf_scenario::settings::Settings;
use pf_tally::lag::Lag;
use std::process::Abort;

/// The task joins.
const JOIN: Event = Event::Join {
    slot: 0,
    task: 1,
    cost: 1,
    period: 3,
    early: 0,
};

/// It leaves.
const LEAVE: Event = Event::Leave { slot: 3, task: 1 };

/// It is delayed.
const DELAY: Event = Event::Delay {
    slot: 0,
    task: 1,
    by: 1,
};

/// The join with its number, and so on.
const JOINED: Numbered = Numbered { id: 1, event: JOIN };

const LEFT: Numbered = Numbered {
    id: 2,
    event: LEAVE,
};

const DELAYED: Numbered = Numbered {
    id: 3,
    event: DELAY,
};

/// Nobody runs.
const IDLE: Pair = [(0, 0), (0, 0)];

/// The task's first subtask runs.
const BUSY: Pair = [(1, 1), (0, 0)];

/// The leave is denied.
const DENIED: Denied = Denied {
    slot: 3,
    id: 2,
    denial: Denial::TooEarly,
};

/// The task is inside still.
const INSIDE: Lag = Lag {
    task: 1,
    cost: 1,
    period: 3,
    received: 1,
    scaled: 0,
};

/// What the desk shows after four slots.
const BEFORE: Shown<'static> = Shown {
    events: &[JOINED, LEFT],
    next: 3,
    rows: &[BUSY, IDLE, IDLE, IDLE],
    denials: &[],
    entries: 6,
    lags: &[],
    misses: &[],
};

/// What it shows where the task is delayed, after a strict edit that was refused.
const AFTER: Shown<'static> = Shown {
    events: &[JOINED, LEFT, DELAYED],
    next: 4,
    rows: &[IDLE, BUSY, IDLE, IDLE],
    denials: &[DENIED],
    entries: 8,
    lags: &[INSIDE],
    misses: &[],
};

/// The delay.
fn delay(is_strict: bool) -> Command {
    Command::Edit {
        change: Change::Insert(DELAY),
        strict: is_strict,
    }
}

/// The task is planned, and four slots are taken.
fn plan(rt: &(impl Abort + Print), desk: &mut Desk) {
    for event in [JOIN, LEAVE] {
        apply_again(rt, desk, plain(Change::Insert(event)));
    }
    apply_each(rt, desk, &[Step, Step, Step, Step]);
}

/// The strict delay is refused, as the leave would be denied: only the history grows.
fn is_refused(rt: &(impl Abort + Print), desk: &mut Desk) {
    let case = Case {
        name: "Desk::apply(strict)",
        command: delay(true),
        before: BEFORE,
        answer: Err(Fault::WouldDeny {
            id: 2,
            denial: Denial::TooEarly,
        }),
        after: Shown {
            entries: 7,
            ..BEFORE
        },
    };
    is_edited(rt, desk, case);
}

/// The other is made, and the leave is denied.
fn is_made(rt: &(impl Abort + Print), desk: &mut Desk) {
    let case = Case {
        name: "Desk::apply(delay)",
        command: delay(false),
        before: Shown {
            entries: 7,
            ..BEFORE
        },
        answer: Ok(3),
        after: AFTER,
    };
    is_edited(rt, desk, case);
}

/// The delay, strict and then not.
pub(crate) fn is_delayed(rt: &(impl Abort + AllocGlobal + Print)) {
    let settings = Settings::new(1, 3, 3).expect(rt, "settings");
    let mut desk = open_again(rt, rt.alloc(), settings);
    plan(rt, &mut desk);
    is_refused(rt, &mut desk);
    is_made(rt, &mut desk);
}
