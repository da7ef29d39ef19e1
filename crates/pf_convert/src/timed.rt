ghost use Rattle.std.specs.Prelude.{◌≡◌, ◌-◌, ◌≤◌, IfOk};
ghost use Rattle.pf_convert.specs.Counting.{IsLeastCover, IsMostWithin};
ghost use Rattle.pf_convert.specs.Slots.{IsLongestPeriod, IsQuantum, IsTimed, IsSlotted, due_of, period_of, runs_before_arrival, slots_or_fault};
ghost use Rattle.pf_convert.specs.declared.words.arrivals.Arrivals.TheVariants.{Any};

use crate::quantum::Quantum;
use crate::slot_fault::SlotFault;
use crate::slotted::Slotted;
use crate::words::arrivals::Arrivals;
use pf_scenario::limits::MOST_EARLY;
use pf_scenario::settings::WIDE_HORIZON;

/// Above every time, in nanoseconds.
pub const TIME_LIMIT: u64 = 1_000_000_000_000_000_000;

/// A task as it is told in time. All times are in nanoseconds and below `TIME_LIMIT`.
#[derive(Clone, Copy)]
pub struct Timed {
    /// The processor time of a job at most, above 0.
    pub work: u64,
    /// The time between the arrivals of two jobs at least, above 0.
    pub every: u64,
    /// How long after its arrival a job is to be done, above 0 and at most `every`; none where that is `every`.
    pub deadline: Option<u64>,
    /// When the first job arrives.
    pub first: u64,
    /// How long before its window a quantum may run.
    pub early: u64,
}

impl Timed {
    /// How long after its arrival a job is to be done.
    pub fn due(&self) -> u64
        ensures { result ≡ due_of self.now }
    {
        self.deadline.unwrap_or(self.every)
    }

    /// The task in slots of this quantum, where its jobs arrive so.
    ///
    /// # Errors
    ///
    /// The first of `SlotFault` that is so, in their order.
    #[tactic(auto, using(crate::proofs::Counting::cover_of, crate::proofs::Counting::within_of, crate::proofs::Counting::longest_of, crate::proofs::Counting::period_within, crate::proofs::Counting::arrived_before))]
    pub fn in_slots(&self, quantum: Quantum, arrivals: Arrivals) -> Result<Slotted, SlotFault>
        requires timed { IsTimed self.now }
        requires quantum { IsQuantum quantum }
        ensures value { result ≡ slots_or_fault quantum arrivals self.now }
        ensures limits { IfOk result IsSlotted }
        ensures cost { IfOk result (λ s. IsLeastCover self.now.work (quantum.length - quantum.switch) s.cost) }
        ensures period { IfOk result (λ s. IsLongestPeriod arrivals quantum.length (due_of self.now) s.period) }
        ensures join { IfOk result (λ s. IsLeastCover self.now.first quantum.length s.join) }
        ensures early { IfOk result (λ s. IsMostWithin self.now.early quantum.length s.early) }
        ensures arrived { IfOk result (λ s. arrivals ≡ Any → s.early ≡ 0) }
    {
        let period = period_of(arrivals, quantum.length, self.due());
        if period == 0 {
            return Err(SlotFault::DueTooSoon);
        }
        let cost = self.work.div_ceil(quantum.length - quantum.switch);
        if cost > period {
            return Err(SlotFault::CostAbovePeriod { cost, period });
        }
        let join = self.first.div_ceil(quantum.length);
        if join >= WIDE_HORIZON {
            return Err(SlotFault::JoinBeyondHorizon { join });
        }
        let early = self.early / quantum.length;
        if early > MOST_EARLY {
            return Err(SlotFault::TooEarly { early });
        }
        if runs_before_arrival(arrivals, early) {
            return Err(SlotFault::BeforeArrival);
        }
        Ok(Slotted {
            cost,
            period,
            join,
            early,
        })
    }
}

/// The slots from a job's release until it is due.
fn period_of(arrivals: Arrivals, quantum: u64, due: u64) -> u64
    requires { 1 ≤ quantum }
    ensures { result ≡ period_of arrivals quantum due }
{
    match arrivals {
        Arrivals::Aligned => due / quantum,
        Arrivals::Any => (due / quantum).saturating_sub(1),
    }
}

/// Whether a quantum that may run so many slots before its window might run before its job arrives, which does so in the slot
/// before its release.
fn runs_before_arrival(arrivals: Arrivals, early: u64) -> bool
    ensures { result ≡ runs_before_arrival arrivals early }
{
    match arrivals {
        Arrivals::Aligned => false,
        Arrivals::Any => early > 0,
    }
}
