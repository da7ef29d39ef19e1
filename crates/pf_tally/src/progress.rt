ghost use Rattle.std.specs.Prelude.{◌≡◌, ◌+◌, ◌^◌, ◌<◌, ◌≤◌, nat_le};
ghost use Rattle.pf_scenario.specs.declared.settings.TheConstants.{WIDE_HORIZON};
ghost use Rattle.pf_window.specs.Window.{deadline_of};
ghost use Rattle.pf_tally.specs.Late.{ran_late};

use crate::miss::Miss;
use pf_weight::weight::Weight;
use pf_window::deadline;

/// How far a task has come in a walk over a run.
#[derive(Clone, Copy)]
pub(crate) struct Progress {
    pub weight: Weight,
    /// How many quanta it has received.
    pub received: u32,
    /// Its shift, in slots: the slot of its join and its delays so far.
    pub shift: u64,
}

impl Progress {
    /// Whether the window of the subtask that is next is over by slot t. It takes two products and no quotient.
    #[inline(always)]
    pub fn is_due(&self, t: u64) -> bool
        requires received { self.now.received < WIDE_HORIZON }
        requires slot { t < WIDE_HORIZON }
        ensures { result ≡ nat_le (deadline_of self.now.weight (self.now.received + 1) + self.now.shift) t }
    {
        let work = (u64::from(self.received) + 1) * self.weight.period();
        t >= self.shift && work <= (t - self.shift) * self.weight.cost()
    }

    /// The miss of the subtask that is next, which runs late in slot t.
    #[inline(always)]
    pub fn ran_late(&self, task: u32, t: u64) -> Miss
        requires received { self.now.received < WIDE_HORIZON }
        requires shift { self.now.shift ≤ 2 ^ 40 }
        ensures { result ≡ ran_late task (self.now.received + 1) (deadline_of self.now.weight (self.now.received + 1) + self.now.shift) t }
    {
        let sub = self.received + 1;
        Miss {
            task,
            sub,
            deadline: deadline(self.weight, sub) + self.shift,
            ran: Some(t),
        }
    }
}
