//! All that can be read of a desk, held against what is wanted.

use crate::asked::{lags_again, misses_again};
use pf_desk::desk::Desk;
use pf_order::pick::Pick;
use pf_place::rows::Rows;
use pf_run::denied::Denied;
use pf_scenario::event::Numbered;
use pf_scenario::scenario::Scenario;
use pf_tally::lag::Lag;
use pf_tally::miss::Miss;
use std::process::Abort;

/// Who runs on two processors: the task and the subtask, or (0, 0) where it is idle.
pub(crate) type Pair = [(u32, u32); 2];

/// What a desk of at most two processors shows.
#[derive(Clone, Copy)]
pub(crate) struct Shown<'a> {
    /// The events held, by their numbers.
    pub(crate) events: &'a [Numbered],
    /// The number of the next new event.
    pub(crate) next: u64,
    /// Who runs in each slot below now.
    pub(crate) rows: &'a [Pair],
    /// The denials of these slots.
    pub(crate) denials: &'a [Denied],
    /// How many commands were answered.
    pub(crate) entries: usize,
    /// How far each task is from its fair share.
    pub(crate) lags: &'a [Lag],
    /// The missed windows.
    pub(crate) misses: &'a [Miss],
}

/// The numbers of a pick.
fn named(pick: Option<Pick>) -> (u32, u32) {
    match pick {
        Some(Pick { task, sub }) => (task, sub),
        None => (0, 0),
    }
}

/// Who runs in slot t, where it has a row.
fn pair(rows: &Rows, t: usize) -> Option<Pair> {
    let row = rows.get(t as u64)?;
    Some([named(row.get(0)), named(row.get(1))])
}

/// Fails where something else is planned.
fn is_planned(rt: &impl Abort, scenario: &Scenario, wanted: Shown<'_>) {
    assert_eq!(rt; scenario.next_number(), wanted.next);
    let mut events = scenario.events();
    for event in wanted.events {
        assert_eq!(rt; events.next(), Some(*event));
    }
    assert_eq!(rt; events.next(), None);
}

/// Fails where others run.
fn are_placed(rt: &impl Abort, rows: &Rows, wanted: &[Pair]) {
    assert_eq!(rt; rows.len(), wanted.len());
    for t in 0..wanted.len() {
        assert_eq!(rt; pair(rows, t), Some(wanted[t]));
    }
}

/// Fails where a task is further from its share or nearer to it, or other windows were missed.
fn are_tallied(rt: &(impl Abort + Print), desk: &Desk, wanted: Shown<'_>) {
    let lags = lags_again(rt, desk);
    assert_eq!(rt; lags.as_slice(), wanted.lags);
    let misses = misses_again(rt, desk);
    assert_eq!(rt; misses.as_slice(), wanted.misses);
}

/// Fails where the desk shows something else.
pub(crate) fn is_shown(rt: &(impl Abort + Print), desk: &Desk, wanted: Shown<'_>) {
    is_planned(rt, desk.scenario(), wanted);
    assert_eq!(rt; desk.now(), wanted.rows.len() as u64);
    are_placed(rt, desk.schedule(), wanted.rows);
    assert_eq!(rt; desk.denials(), wanted.denials);
    assert_eq!(rt; desk.history().len(), wanted.entries);
    are_tallied(rt, desk, wanted);
}
