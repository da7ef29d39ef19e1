use pf_scenario::event::Event;

/// The processors of the desk, which are always busy.
pub(crate) const PROCESSORS: u32 = 8;

/// The tasks that fill them: they have the numbers up to this one.
pub(crate) const TASKS: u64 = 32;

/// A slot that no job comes to.
pub(crate) const LATER: u64 = 1_000_000;

/// The distance of the checkpoints, in slots.
pub(crate) const EVERY: u64 = 1_024;

/// What is to be done.
#[derive(Clone, Copy, Debug, PartialEq, Eq)]
pub(crate) struct Job {
    /// Whether the desk is a plain one.
    pub is_plain: bool,
    /// Whether threads take slots and quanta. Else they read snapshots.
    pub is_take: bool,
    /// How many threads do it: 1 to the number of processors.
    pub threads: u32,
    /// How many threads make changes meanwhile.
    pub planners: u32,
    /// How many slots are taken, or how many snapshots each thread reads.
    pub count: u64,
}

impl Job {
    /// How many threads there are.
    pub(crate) fn callers(self) -> u32 {
        self.threads.saturating_add(self.planners)
    }
}

/// The job that the words name.
pub(crate) fn read_job(words: &[String]) -> Option<Job> {
    let [desk, what, threads, planners, count] = words else {
        return None;
    };
    let job = Job {
        is_plain: desk.as_str() == "plain",
        is_take: what.as_str() == "take",
        threads: threads.parse().ok()?,
        planners: planners.parse().ok()?,
        count: count.parse().ok()?,
    };
    let are_few = job.threads <= PROCESSORS && job.planners <= PROCESSORS;
    (job.threads > 0 && are_few).then_some(job)
}

/// A join of the task with one of four weights, which together ask for one processor.
pub(crate) fn join(slot: u64, task: u64) -> Event {
    let (cost, period) = match task % 4 {
        0 => (1, 12),
        1 => (5, 12),
        2 => (1, 3),
        _ => (1, 6),
    };
    Event::Join {
        slot,
        task,
        cost,
        period,
        early: 0,
    }
}
