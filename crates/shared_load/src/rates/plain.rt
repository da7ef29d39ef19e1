use crate::rates::job::{EVERY, Job, PROCESSORS};
use crate::rates::work::{Table, Worker, work_at_once};
use pf_desk::command::Command;
use pf_desk::desk::Desk;
use pf_desk::reply::Reply;
use pf_order::meter::Meter;
use pf_order::pick::Pick;
use pf_scenario::change::Change;
use pf_scenario::settings::Settings;
use std::sync::{Mutex, Wait};
use std::thread::Threads;

/// A desk for one caller, with what was picked for each processor and lies untaken.
#[derive(Drop)]
pub(crate) struct PlainDesk {
    desk: Desk,
    meter: Meter,
    untaken: [Option<Pick>; PROCESSORS as usize],
}

impl PlainDesk {
    /// Takes the next slot. False where a quantum lies untaken, or memory is refused.
    fn step(&mut self) -> bool {
        if self.untaken.iter().any(|place| place.is_some()) {
            return false;
        }
        let step = self.desk.apply(&mut self.meter, 0, Command::Step);
        let Ok(Reply::Stepped { row, .. }) = step else {
            return false;
        };
        for processor in 0..PROCESSORS {
            self.untaken[processor as usize] = row.view().get(processor);
        }
        true
    }

    /// Takes the quantum of a processor. False where none lies there.
    fn take(&mut self, processor: u32) -> bool {
        let place = self.untaken.get_mut(processor as usize);
        place.map_or(false, |place| place.take().is_some())
    }

    /// Makes a change. The answer is the number of its event.
    fn edit(&mut self, change: Change) -> Option<u64> {
        let strict = false;
        let edit = Command::Edit { change, strict };
        match self.desk.apply(&mut self.meter, 0, edit) {
            Ok(Reply::Edited { id }) => Some(id),
            _ => None,
        }
    }
}

// A seat is the number of quanta that it took.
impl Table<u64> for Mutex<PlainDesk> {
    fn take_slot<R: Wait>(&self, rt: &R, _seat: &mut u64) -> bool {
        self.lock(rt).step()
    }

    fn take_quantum<R: Wait>(&self, rt: &R, seat: &mut u64, processor: u32) {
        if self.lock(rt).take(processor) {
            *seat = seat.saturating_add(1);
        }
    }

    fn quanta(&self, seat: &u64) -> u64 {
        *seat
    }

    fn read_snapshot<R: Wait>(&self, rt: &R, _seat: &mut u64) -> bool {
        let snapshot = self.lock(rt).desk.snapshot();
        snapshot.is_ok()
    }

    fn make_change<R: Wait>(&self, rt: &R, _seat: &mut u64, change: Change) -> Option<u64> {
        self.lock(rt).edit(change)
    }
}

/// Does the job at a plain desk under a lock. None where memory is refused.
pub(crate) fn use_plain<R: Threads + Wait + AllocGlobal + Sync>(
    rt: &R,
    settings: Settings,
    job: Job,
) -> Option<(u64, u64)> {
    let mut workers = Vec::new(rt.alloc());
    for number in 0..job.callers() {
        let (seat, done) = (0, 0);
        workers.push(Worker { number, seat, done }).ok()?;
    }
    let Ok(desk) = Desk::open(rt.alloc(), settings, EVERY) else {
        return None;
    };
    let table = Mutex::new(PlainDesk {
        desk,
        meter: Meter::new(),
        untaken: [None; PROCESSORS as usize],
    });
    Some(work_at_once(rt, &table, job, &mut workers))
}
