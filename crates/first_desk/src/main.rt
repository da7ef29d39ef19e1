//! A first desk: makes a plan by calls of pf_desk, and prints who runs where, how far each task is from its fair share,
//! how many commands were answered, and what one more would change. The contracts of `plan` and `if_left` are what a
//! caller relies on.
#![tactic(auto)]

mod plan;
mod what_if;

use pf_desk::desk::Desk;
use pf_place::row_view::RowView;

/// Prints a row: the slot, and who sits on each processor.
fn print_row(rt: &HostRuntime, slot: u64, row: RowView<'_>) -> anyhow::Result<()> {
    print!(rt; "slot {slot}:")?;
    for processor in 0..2 {
        match row.get(processor) {
            Some(pick) => print!(rt; " {}/{}", pick.task, pick.sub)?,
            None => print!(rt; " -")?,
        }
    }
    println!(rt; "")?;
    Ok(())
}

/// Prints the rows of all slots stepped.
fn print_schedule(rt: &HostRuntime, desk: &Desk) -> anyhow::Result<()> {
    for slot in 0..desk.now() {
        if let Some(row) = desk.schedule().get(slot) {
            print_row(rt, slot, row)?;
        }
    }
    Ok(())
}

/// Prints how far each task is from its fair share, in parts of its period.
fn print_lags(rt: &HostRuntime, desk: &Desk) -> anyhow::Result<()> {
    for lag in &desk.lags()? {
        println!(rt; "task {}: {} of {}", lag.task, lag.scaled, lag.period)?;
    }
    Ok(())
}

fn main(rt: HostRuntime) -> anyhow::Result<()> {
    let mut desk = plan::plan(rt.alloc())?;
    print_schedule(&rt, &desk)?;
    print_lags(&rt, &desk)?;
    println!(rt; "{} commands", desk.history().len())?;
    let seen = what_if::if_left(&mut desk, 3, 2)?;
    println!(rt;
        "if task 2 left in slot 3: {} events",
        seen.events().count()
    )?;
    Ok(())
}
