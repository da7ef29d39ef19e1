//! A first shared desk: two planners step at once, a dispatcher for each of two processors hands out the quanta, and a reader
//! follows, each in a thread of its own. Prints who ran where, how many quanta were handed out by whom and how many are left,
//! and how many entries the reader read: the same, whoever comes first. The contract of `run` is what a caller relies on.
#![tactic(auto)]

mod dispatcher;
mod planner;
mod reader;
mod seats;
mod team;
mod turns;
mod work;

use crate::work::Work;
use pf_desk::desk::Desk;
use pf_place::row_view::RowView;
use pf_scenario::settings::Settings;
use pf_share::blank::Blank;
use std::marker::Brand;

/// Prints a row: the slot, and who sits on each processor.
fn print_row(rt: &HostRuntime, slot: u64, row: RowView<'_>) -> anyhow::Result<()> {
    print!(rt; "slot {slot}:")?;
    for processor in 0..2 {
        match row.get(processor) {
            Some(pick) => print!(rt; " {}/{}", pick.task, pick.sub)?,
            None => print!(rt; " -")?,
        }
    }
    println!(rt; "")?;
    Ok(())
}

/// Prints the rows of all slots stepped.
fn print_schedule(rt: &HostRuntime, desk: &Desk) -> anyhow::Result<()> {
    for slot in 0..desk.now() {
        if let Some(row) = desk.schedule().get(slot) {
            print_row(rt, slot, row)?;
        }
    }
    Ok(())
}

/// Prints what became of the quanta, and what was read.
fn print_counts(rt: &HostRuntime, work: &Work) -> anyhow::Result<()> {
    println!(rt; "processor 0: {} quanta", work.first.len())?;
    println!(rt; "processor 1: {} quanta", work.second.len())?;
    println!(rt; "left: {} quanta", work.closed.left.len())?;
    println!(rt; "read: {} entries", work.read)?;
    Ok(())
}

fn main(rt: HostRuntime) -> anyhow::Result<()> {
    let blank = Blank::open(&rt, rt.alloc(), Settings::new(2, 3, 6)?, 64, 5, 1)?;
    match work::run::<Brand, _, _>(&rt, blank) {
        Some(work) => {
            print_schedule(&rt, &work.closed.desk)?;
            print_counts(&rt, &work)
        }
        None => Ok(println!(rt; "memory was refused")?),
    }
}
