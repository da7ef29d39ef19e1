//! A soak of the shared desk: three planners, three dispatchers and two readers use one desk at once, each in a thread of
//! its own, with commands that are drawn by chance. Afterwards the history is answered again on a fresh desk, which must
//! answer the same, and each quantum that a step issued must be accounted for once. A seed fixes what is drawn, and not who comes
//! first.

mod account;
mod calls;
mod draws;
mod fault;
mod replay;
mod round;
mod seats;
mod worker;

use crate::desk::open_desk;
use crate::soak::draws::Draws;
use crate::soak::round::check_round;
use crate::soak::worker::{ENTRIES, EVERY, THREADS};
use pf_scenario::settings::Settings;
use std::marker::Brand;
use std::sync::Wait;
use std::thread::Threads;

/// Settings of two to four processors and the base 6 or 12, with a cap that lets tasks fill all processors.
fn draw_settings(seed: u64) -> anyhow::Result<Settings> {
    let mut draws = Draws::new(seed);
    let processors = 2 + u64::from(draws.below(3));
    let base = 6 + 6 * u64::from(draws.below(2));
    let all = processors.saturating_mul(base);
    Ok(Settings::new(processors, base, all)?)
}

/// Plays a round that the seed draws, and prints how many threads, entries and quanta it had. Without a seed it is that of 1, and
/// the quanta are left out, whose number depends on who came first.
pub(crate) fn print_round<R: Threads + Wait + AllocGlobal + Print + Sync>(
    rt: &R,
    named: Option<u64>,
) -> anyhow::Result<()> {
    let seed = named.unwrap_or(1);
    let settings = draw_settings(seed)?;
    let blank = open_desk(rt, rt.alloc(), settings, EVERY, THREADS as u64)?;
    let quanta = check_round::<Brand, _, _>(rt, blank, settings, seed)?;
    print!(rt; "{THREADS} threads, {ENTRIES} entries, ")?;
    if named.is_some() {
        print!(rt; "{quanta} quanta, ")?;
    }
    println!(rt; "0 faults")?;
    Ok(())
}
