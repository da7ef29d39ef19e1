use std::sync::Wait;
use std::sync::atomic::{AtomicBool, AtomicU64, Ordering};

/// The word in an even round, and before the first one.
const EVEN: u64 = 0;

/// The word in an odd round.
const ODD: u64 = 1;

/// The word once no round follows.
const OVER: u64 = 2;

/// Where a planner calls workers to the rounds of a drill, one for each step, and where they tell it that they are back.
#[derive(Drop)]
pub(crate) struct Rounds {
    workers: u64,
    word: AtomicU64,
    /// How many workers are out.
    out: AtomicU64,
    is_given_up: AtomicBool,
}

impl Rounds {
    /// Those of so many workers, before the first one.
    pub(crate) fn new(workers: u64) -> Self {
        Rounds {
            workers,
            word: AtomicU64::new(EVEN),
            out: AtomicU64::new(0),
            is_given_up: AtomicBool::new(false),
        }
    }

    /// Calls all workers to the next round, and waits until they are back. Whether none gave up.
    pub(crate) fn run(&self, rt: &impl Wait) -> bool {
        self.out.store(self.workers, Ordering::SeqCst);
        let next = match self.word.load(Ordering::SeqCst) {
            EVEN => ODD,
            _ => EVEN,
        };
        self.give(next);
        self.wait_for_workers(rt);
        !self.is_given_up.load(Ordering::SeqCst)
    }

    /// Tells all workers that no round follows.
    pub(crate) fn end(&self) {
        self.give(OVER);
    }

    /// Gives word to all workers.
    fn give(&self, word: u64) {
        self.word.store(word, Ordering::SeqCst);
        self.word.wake_all();
    }

    /// Waits until no worker is out.
    fn wait_for_workers(&self, rt: &impl Wait) {
        for _ in rt.forever() {
            let out = self.out.load(Ordering::SeqCst);
            if out == 0 {
                return;
            }
            self.out.park(rt, u32::try_from(out).unwrap_or(0));
        }
        unreachable!()
    }

    /// Waits for the round after an even or an odd one. Whether there is one.
    pub(crate) fn wait_for_next(&self, rt: &impl Wait, is_odd: bool) -> bool {
        let last = u32::from(is_odd);
        for _ in rt.forever() {
            let word = self.word.load(Ordering::SeqCst);
            if word != u64::from(last) {
                return word != OVER;
            }
            self.word.park(rt, last);
        }
        unreachable!()
    }

    /// Tells that a worker is back. One that gave up goes on in no further round.
    pub(crate) fn come_back(&self, gave_up: bool) {
        if gave_up {
            self.is_given_up.store(true, Ordering::SeqCst);
        }
        if self.out.fetch_sub(1, Ordering::SeqCst) == 1 {
            self.out.wake_one();
        }
    }
}
