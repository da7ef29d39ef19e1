ghost use Rattle.std.specs.Prelude.{◌≡◌, All, IfSome};
ghost use Rattle.pf_board.specs.Passes.{AreOf};
ghost use Rattle.pf_share.specs.Locked.{origin_of};
ghost use Rattle.shared_load.specs.Soak.Seated.{IsSeated};

use crate::soak::account::account;
use crate::soak::fault::Fault;
use crate::soak::replay::replay;
use crate::soak::seats::{Back, put_all, seat_all};
use crate::soak::worker::{ENTRIES, THREADS, Worker};
use pf_board::quantum::Quantum;
use pf_scenario::settings::Settings;
use pf_share::blank::Blank;
use pf_share::closed::Closed;
use pf_share::locked::Locked;
use pf_share::naming::Naming;
use pf_share::opened::Opened;
use pf_share::shared::Shared;
use std::alloc::Global;
use std::sync::Wait;
use std::thread::{Threads, for_each_mut};

/// What is left of a desk that was used: its history with the quanta that nobody took, those that were taken, and what was
/// wrong meanwhile.
#[derive(Drop)]
struct Used {
    closed: Closed,
    got: Vec<Quantum>,
    fault: Option<Fault>,
}

/// Lets each worker work, in a thread of its own.
fn work_at_once<N: Naming + Send + Sync, H: Wait + Drop + Send, R: Threads + Wait + Sync>(
    rt: &R,
    shared: &Shared<N, Locked<N, H>>,
    workers: &mut [Worker],
)
    requires { All (IsSeated N.board N.book) workers.old }
    ensures { All (IsSeated N.board N.book) workers.new }
{
    for_each_mut(
        rt,
        workers,
        THREADS,
        &|_, worker: &mut Worker|
            requires { IsSeated N.board N.book worker.now }
            ensures { IsSeated N.board N.book worker.exit.now }
        { worker.work(rt, shared) },
    );
}

/// Ends the desk. None where memory is refused.
fn finish<N: Naming, H: Wait + Drop>(
    rt: &impl Wait,
    shared: Shared<N, Locked<N, H>>,
    back: Back,
) -> Option<Used>
    requires { AreOf N.board.id back.passes.items }
{
    let Back {
        passes,
        viewers,
        got,
        fault,
    } = back;
    match shared.close(rt, passes, viewers) {
        Ok(closed) => Some(Used { closed, got, fault }),
        Err(_) => None,
    }
}

/// Eight workers use the desk at once. None where memory is refused.
fn use_desk<N: Naming + Send + Sync, H: Wait + Drop + Send, R: Threads + Wait + AllocGlobal + Sync>(
    rt: &R,
    blank: Blank<H>,
    seed: u64,
) -> Option<Used>
    requires name { (blank.board ≡ N.board) × (blank.book ≡ N.book) }
    requires passes { AreOf N.board.id blank.passes }
    requires viewers { All (λ v. v.origin ≡ origin_of N.board N.book) blank.viewers }
{
    let Opened {
        shared,
        passes,
        viewers,
    } = blank.start::<N>();
    let mut workers = seat_all::<N>(rt.alloc(), seed, passes, viewers)?;
    work_at_once(rt, &shared, &mut workers);
    let back = put_all::<N>(rt.alloc(), workers)?;
    finish(rt, shared, back)
}

/// Tries what is left of a desk with these settings. The answer is the number of quanta that were issued.
fn check(alloc: Global, settings: Settings, used: &Used) -> Result<usize, Fault> {
    if let Some(fault) = used.fault {
        return Err(fault);
    }
    let desk = &used.closed.desk;
    let entries = desk.history().len() as u64;
    if entries != ENTRIES {
        return Err(Fault::Entries(entries));
    }
    replay(alloc, settings, desk)?;
    account(alloc, desk.history(), &used.got, &used.closed.left)
}

/// Has eight workers use the desk at once, who draw by this seed, and tries what they leave. The answer is the number of
/// quanta that were issued.
pub(crate) fn check_round<
    N: Naming + Send + Sync,
    H: Wait + Drop + Send,
    R: Threads + Wait + AllocGlobal + Sync,
>(rt: &R, blank: Blank<H>, settings: Settings, seed: u64) -> Result<usize, Fault>
    requires name { (blank.board ≡ N.board) × (blank.book ≡ N.book) }
    requires passes { AreOf N.board.id blank.passes }
    requires viewers { All (λ v. v.origin ≡ origin_of N.board N.book) blank.viewers }
{
    match use_desk::<N, H, R>(rt, blank, seed) {
        Some(used) => check(rt.alloc(), settings, &used),
        None => Err(Fault::NoMemory),
    }
}
