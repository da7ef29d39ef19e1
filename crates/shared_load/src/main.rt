//! Loads on a shared desk, each a folder: a soak, whose rounds check what threads did at once (`tools/soak`), and what threads get
//! from a desk (`tools/rates`). The words are `soak SEED`, or `rate` and those of a job. Without words it plays a round and does
//! a small job of each kind.
#![tactic(auto)]

mod desk;
mod rates;
mod soak;

use crate::rates::{print_job, print_small_jobs};
use crate::soak::print_round;
use std::env;

fn main(rt: HostRuntime) -> anyhow::Result<()> {
    let words: Vec<String> = env::args(&rt)?.skip(1).collect(rt.alloc())?;
    match words.as_slice() {
        [] => {
            print_round(&rt, None)?;
            print_small_jobs(&rt)
        }
        [what, seed] if what.as_str() == "soak" => print_round(&rt, Some(seed.parse()?)),
        [what, job @ ..] if what.as_str() == "rate" => print_job(&rt, job),
        _ => anyhow::bail!("soak SEED, or rate with the words of a job"),
    }
}
