use crate::for_c::ForC;
use pf_tally::figures::Figures;

/// What every simulator tells of a task, as C gets it.
#[repr(C)]
#[derive(Clone, Copy)]
pub struct RawFigures {
    /// The task's number, 1 to 4,095.
    pub task: u64,
    /// Its cost, in quanta.
    pub cost: u64,
    /// Its period, in slots.
    pub period: u64,
    /// The quanta that it received.
    pub quanta: u64,
    /// How often a quantum was on another processor than the one before.
    pub migrations: u64,
    /// How often it went on with a job after a pause.
    pub preemptions: u64,
    /// The jobs that were done, of `cost` quanta each.
    pub jobs: u64,
    /// The shortest response of a job, in slots; 0 where no job was done.
    pub response_least: i64,
    /// The longest response of a job, in slots; 0 where no job was done.
    pub response_greatest: i64,
    /// The missed windows.
    pub missed: u64,
    /// The greatest number of slots by which a subtask ran after the last slot of its window.
    pub tardiness: u64,
    /// The least lag, times the period.
    pub scaled_least: i64,
    /// The greatest lag, times the period.
    pub scaled_greatest: i64,
}

impl ForC for Figures {
    ghost use Rattle.pf_c_api.specs.Told.{raw_figures};

    type Raw = RawFigures;

    ghost raw = { raw_figures };

    fn for_c(self) -> RawFigures {
        let (response_least, response_greatest) = match self.response {
            Some(response) => (response.least, response.greatest),
            None => (0, 0),
        };
        RawFigures {
            task: u64::from(self.task),
            cost: self.cost,
            period: self.period,
            quanta: self.quanta,
            migrations: self.migrations,
            preemptions: self.preemptions,
            jobs: self.jobs,
            response_least,
            response_greatest,
            missed: self.missed,
            tardiness: self.tardiness,
            scaled_least: self.lag.least,
            scaled_greatest: self.lag.greatest,
        }
    }
}
