ghost use Rattle.std.specs.Prelude.{◌≡◌, ◌≤◌, length, All};
ghost use Rattle.pf_share.specs.Locked.{origin_of};

use crate::rates::job::Job;
use crate::rates::work::{Table, Worker, work_at_once};
use pf_board::take::Take;
use pf_desk::reply::Reply;
use pf_scenario::change::Change;
use pf_share::blank::Blank;
use pf_share::calls::DeskPass;
use pf_share::done::Done;
use pf_share::locked::Locked;
use pf_share::naming::Naming;
use pf_share::opened::Opened;
use pf_share::shared::Shared;
use pf_share::viewer::Viewer;
use std::alloc::Global;
use std::marker::PhantomData;
use std::sync::Wait;
use std::thread::Threads;

/// A seat at a shared desk, whose pass and viewer are that desk's. It counts no quantum that its pass did not take.
#[derive(Drop)]
pub(crate) struct Seat<N: Naming> {
    pass: DeskPass,
    viewer: Viewer,
    quanta: u64,
    of: PhantomData<N>,
    ghost boarded: { pass.board ≡ N.board.id },
    ghost viewed: { viewer.origin ≡ origin_of N.board N.book },
    ghost counted: { quanta ≤ length pass.taken },
}

impl<N: Naming, H: Wait + Drop> Table<Seat<N>> for Shared<N, Locked<N, H>> {
    fn take_slot<R: Wait>(&self, rt: &R, seat: &mut Seat<N>) -> bool {
        self.step(rt, &mut seat.pass).is_ok()
    }

    fn take_quantum<R: Wait>(&self, _rt: &R, seat: &mut Seat<N>, processor: u32) {
        if let Take::Got(_) = self.take(&mut seat.pass, processor) {
            seat.quanta = seat.quanta.saturating_add(1);
        }
    }

    fn quanta(&self, seat: &Seat<N>) -> u64 {
        seat.quanta
    }

    fn read_snapshot<R: Wait>(&self, _rt: &R, seat: &mut Seat<N>) -> bool {
        self.read(&mut seat.viewer).is_ok()
    }

    fn make_change<R: Wait>(&self, rt: &R, seat: &mut Seat<N>, change: Change) -> Option<u64> {
        match self.edit(rt, &mut seat.pass, change, false) {
            Ok(
                Done {
                    reply: Reply::Edited { id },
                    ..
                },
            ) => Some(id),
            _ => None,
        }
    }
}

/// A seat with the last pass and the last viewer. None where one of them is wanting.
fn pop_seat<N: Naming>(passes: &mut Vec<DeskPass>, viewers: &mut Vec<Viewer>) -> Option<Seat<N>>
    requires passes { All (λ p. p.board ≡ N.board.id) passes.old.items }
    requires viewers { All (λ v. v.origin ≡ origin_of N.board N.book) viewers.old.items }
    ensures passes { All (λ p. p.board ≡ N.board.id) passes.new.items }
    ensures viewers { All (λ v. v.origin ≡ origin_of N.board N.book) viewers.new.items }
{
    Some(Seat {
        pass: passes.pop()?,
        viewer: viewers.pop()?,
        quanta: 0,
        of: PhantomData,
    })
}

/// A worker for each thread of the job. None where there are too few passes or viewers, or memory is refused.
fn seat_all<N: Naming>(
    alloc: Global,
    job: Job,
    mut passes: Vec<DeskPass>,
    mut viewers: Vec<Viewer>,
) -> Option<Vec<Worker<Seat<N>>>>
    requires passes { All (λ p. p.board ≡ N.board.id) passes.items }
    requires viewers { All (λ v. v.origin ≡ origin_of N.board N.book) viewers.items }
{
    let mut workers = Vec::new(alloc);
    for number in 0..job.callers() {
        let seat = pop_seat::<N>(&mut passes, &mut viewers)?;
        let done = 0;
        workers.push(Worker { number, seat, done }).ok()?;
    }
    Some(workers)
}

/// Does the job at a shared desk with a pass and a viewer for each thread. None where there are fewer, or memory is refused.
pub(crate) fn use_shared<
    N: Naming + Send + Sync,
    H: Wait + Drop + Send,
    R: Threads + Wait + AllocGlobal + Sync,
>(rt: &R, blank: Blank<H>, job: Job) -> Option<(u64, u64)>
    requires name { (blank.board ≡ N.board) × (blank.book ≡ N.book) }
    requires passes { All (λ p. p.board ≡ N.board.id) blank.passes }
    requires viewers { All (λ v. v.origin ≡ origin_of N.board N.book) blank.viewers }
{
    let Opened {
        shared,
        passes,
        viewers,
    } = blank.start::<N>();
    let mut workers = seat_all::<N>(rt.alloc(), job, passes, viewers)?;
    Some(work_at_once(rt, &shared, job, &mut workers))
}
