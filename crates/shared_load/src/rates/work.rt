use crate::rates::job::{Job, LATER, PROCESSORS, TASKS, join};
use pf_scenario::change::Change;
use std::sync::Wait;
use std::sync::atomic::{AtomicU64, Ordering};
use std::thread::{Threads, for_each_mut};

/// A thread that takes so many turns gives up.
const TURNS: u64 = 1_000_000_000;

/// A desk for many threads, each of which has a seat at it.
pub(crate) trait Table<S> {
    /// Takes the next slot. False where a quantum lies untaken, or memory is refused.
    fn take_slot<R: Wait>(&self, rt: &R, seat: &mut S) -> bool;

    /// Takes the quantum of a processor, where one lies there.
    fn take_quantum<R: Wait>(&self, rt: &R, seat: &mut S, processor: u32);

    /// How many quanta the seat has taken.
    fn quanta(&self, seat: &S) -> u64;

    /// Reads a snapshot. False where memory is refused.
    fn read_snapshot<R: Wait>(&self, rt: &R, seat: &mut S) -> bool;

    /// Makes a change. The answer is the number of its event. None where it is refused, or memory is.
    fn make_change<R: Wait>(&self, rt: &R, seat: &mut S, change: Change) -> Option<u64>;
}

/// A job that is being done.
#[derive(Drop)]
struct Going {
    job: Job,
    /// How many slots dispatchers have set out to take.
    claimed: AtomicU64,
    /// How many dispatchers or readers have not done yet.
    busy: AtomicU64,
}

/// A thread with its seat.
#[derive(Drop)]
pub(crate) struct Worker<S> {
    pub number: u32,
    pub seat: S,
    /// How many quanta it took, snapshots it read, or changes it made.
    pub done: u64,
}

impl<S> Worker<S> {
    /// Does the job, or plans until all others have done theirs: those of the last numbers plan.
    fn work<D: Table<S>, R: Wait>(&mut self, rt: &R, desk: &D, going: &Going) {
        let job = going.job;
        if self.number >= job.threads {
            return self.plan(rt, desk, &going.busy);
        }
        if job.is_take {
            self.dispatch(rt, desk, job, &going.claimed);
        } else {
            for _ in 0..job.count {
                let is_read = desk.read_snapshot(rt, &mut self.seat);
                self.done = self.done.saturating_add(u64::from(is_read));
            }
        }
        going.busy.fetch_sub(1, Ordering::SeqCst);
    }

    /// Takes what lies there, and then the next slot, until dispatchers have set out to take all slots.
    fn dispatch<D: Table<S>, R: Wait>(&mut self, rt: &R, desk: &D, job: Job, claimed: &AtomicU64) {
        let first = self.number.saturating_mul(PROCESSORS / job.threads.max(1)) % PROCESSORS;
        let mut has_slot = false;
        for _ in 0..TURNS {
            for k in 0..PROCESSORS {
                desk.take_quantum(rt, &mut self.seat, (first + k) % PROCESSORS);
            }
            if !has_slot && claimed.fetch_add(1, Ordering::SeqCst) >= job.count {
                break;
            }
            has_slot = !desk.take_slot(rt, &mut self.seat);
        }
        self.done = desk.quanta(&self.seat);
    }

    /// Moves a join that is still to come, of a task of its own, until nobody is busy.
    fn plan<D: Table<S>, R: Wait>(&mut self, rt: &R, desk: &D, busy: &AtomicU64) {
        let task = TASKS + 1 + u64::from(self.number);
        let insert = Change::Insert(join(LATER, task));
        let Some(id) = desk.make_change(rt, &mut self.seat, insert) else {
            return;
        };
        for turn in 1..TURNS {
            if busy.load(Ordering::SeqCst) == 0 {
                return;
            }
            let alter = Change::Alter(id, join(LATER + turn % 2, task));
            if desk.make_change(rt, &mut self.seat, alter).is_some() {
                self.done = turn;
            }
        }
    }
}

/// How much was got, and how many changes planners made.
fn add_up<S>(job: Job, workers: &[Worker<S>]) -> (u64, u64) {
    let (mut got, mut changes) = (0u64, 0u64);
    for worker in workers {
        let is_planner = worker.number >= job.threads;
        let sum = if is_planner { &mut changes } else { &mut got };
        *sum = sum.saturating_add(worker.done);
    }
    (got, changes)
}

/// Has tasks join that fill all processors, and then does the job, each worker in a thread of its own. The answer is how much
/// was got, and how many changes planners made.
pub(crate) fn work_at_once<S: Send, D: Table<S> + Sync, R: Threads + Wait + Sync>(
    rt: &R,
    desk: &D,
    job: Job,
    workers: &mut [Worker<S>],
) -> (u64, u64) {
    if let Some(first) = workers.first_mut() {
        for task in 1..=TASKS {
            let _ = desk.make_change(rt, &mut first.seat, Change::Insert(join(0, task)));
        }
    }
    let going = Going {
        job,
        claimed: AtomicU64::new(0),
        busy: AtomicU64::new(u64::from(job.threads)),
    };
    let all = workers.len().max(1);
    for_each_mut(
        rt,
        workers,
        all,
        &|_, worker: &mut Worker<S>| {
            worker.work(rt, desk, &going);
        },
    );
    add_up(job, workers)
}
