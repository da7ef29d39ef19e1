ghost use Rattle.std.specs.Prelude.{◌≡◌, None};
ghost use Rattle.pf_weight.specs.Weighed.{weight_fault};
ghost use Rattle.pf_engine.specs.Engines.{IsInside};
ghost use Rattle.pf_engine.specs.Saved.{saved_of, task_of};

use crate::kept_task::KeptTask;
use pf_admit::member::Member;
use pf_weight::base::Base;
use pf_weight::weight::Weight;

/// A task inside, as a saved engine keeps it. Its weight is without the units, which are made anew from its cost and its
/// period.
#[derive(Clone, Copy)]
pub(crate) struct SavedTask {
    /// 1 to 4,095.
    pub(crate) task: u32,
    /// How many quanta it received.
    pub(crate) done: u32,
    /// The cost of its weight.
    pub(crate) cost: u32,
    /// The period of its weight.
    pub(crate) period: u32,
    /// How many slots before its release a subtask may run.
    pub(crate) early: u32,
    /// The slot in which it joined.
    pub(crate) joined: u32,
    /// The shift of its next subtask.
    pub(crate) shift: u64,
    /// The shift of its last subtask that ran.
    pub(crate) last: u64,
}

const _: () = prove!(size_of::<SavedTask>() == 40);

impl SavedTask {
    /// The task, saved.
    pub(crate) fn of(kept: &KeptTask) -> Self
        requires { IsInside kept.now }
        ensures { result ≡ saved_of kept.now }
    {
        let member = &kept.member;
        SavedTask {
            task: kept.task,
            done: member.done as u32,
            cost: member.weight.cost() as u32,
            period: member.weight.period() as u32,
            early: member.early as u32,
            joined: member.joined as u32,
            shift: member.shift,
            last: member.last,
        }
    }

    /// What was known of the task, where weights are over this base.
    pub(crate) fn member(&self, base: Base) -> Member
        requires { weight_fault base self.now.cost self.now.period ≡ None }
        ensures { result ≡ (task_of base self.now).member }
    {
        let Ok(weight) = Weight::new(base, u64::from(self.cost), u64::from(self.period)) else {
            unreachable!()
        };
        Member {
            weight,
            joined: u64::from(self.joined),
            early: u64::from(self.early),
            done: u64::from(self.done),
            shift: self.shift,
            last: self.last,
        }
    }
}
