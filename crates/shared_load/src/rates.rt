//! What threads get from one desk: dispatchers take slots and quanta of a full load, or readers read snapshots, with planners
//! at work beside them or without. The desk is a shared one (pf_share), or a plain one (pf_desk) under a lock.

mod job;
mod plain;
mod shared;
mod work;

use crate::desk::open_desk;
use crate::rates::job::{EVERY, Job, PROCESSORS, read_job};
use crate::rates::plain::use_plain;
use crate::rates::shared::use_shared;
use pf_scenario::settings::Settings;
use std::marker::Brand;
use std::sync::Wait;
use std::thread::Threads;

/// Does a job at a desk of its kind.
fn do_job<R: Threads + Wait + AllocGlobal + Sync>(rt: &R, job: Job) -> anyhow::Result<(u64, u64)> {
    let settings = Settings::new(u64::from(PROCESSORS), 12, 96)?;
    let done = if job.is_plain {
        use_plain(rt, settings, job)
    } else {
        let blank = open_desk(rt, rt.alloc(), settings, EVERY, u64::from(job.callers()))?;
        use_shared::<Brand, _, _>(rt, blank, job)
    };
    match done {
        Some(done) => Ok(done),
        None => anyhow::bail!("memory was refused"),
    }
}

/// Does the job that the words name: `shared` or `plain`, `take` or `read`, the number of dispatchers or readers (1 to 8), that of
/// planners (at most 8), and how many slots, or snapshots of each reader. Prints how many quanta or snapshots were got, and how
/// many changes made.
///
/// # Errors
///
/// Where the words name none.
pub(crate) fn print_job<R: Threads + Wait + AllocGlobal + Print + Sync>(
    rt: &R,
    words: &[String],
) -> anyhow::Result<()> {
    let Some(job) = read_job(words) else {
        anyhow::bail!("shared|plain take|read THREADS PLANNERS COUNT");
    };
    let (got, changes) = do_job(rt, job)?;
    Ok(println!(rt; "{got} got, {changes} changes")?)
}

/// Does a small job of each kind, and prints what was got; how many changes are made depends on who comes first.
pub(crate) fn print_small_jobs<R: Threads + Wait + AllocGlobal + Print + Sync>(
    rt: &R,
) -> anyhow::Result<()> {
    for is_plain in [false, true] {
        for is_take in [true, false] {
            let job = Job {
                is_plain,
                is_take,
                threads: 2,
                planners: 1,
                count: 50,
            };
            let (got, _) = do_job(rt, job)?;
            println!(rt; "{got} got")?;
        }
    }
    Ok(())
}
