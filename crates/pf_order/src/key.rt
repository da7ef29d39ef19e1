ghost use Rattle.std.specs.Prelude.{◌≡◌, ◌<◌, ◌≤◌, ◌^◌};
ghost use Rattle.pf_window.specs.TheConstants.{LARGEST_TASK};
ghost use Rattle.pf_order.specs.Priority.{IsPriority};
ghost use Rattle.pf_order.specs.KeyOf.{key_of};

use pf_weight::weight::Weight;
use pf_window::{bit, deadline, group};
use std::marker::Model;

/// What the order looks at of one subtask. Nothing of it can be read but its task and its number, and two keys can
/// only be compared by `Meter::before`: so every comparison is counted.
#[derive(Clone, Copy)]
pub struct Key {
    pub(crate) deadline: u64,
    /// The bit and the group deadline together: the greater one comes first.
    pub(crate) urgency: u64,
    pub(crate) task: u32,
    pub(crate) sub: u32,
}

impl Model for Key {
    ghost use Rattle.std.specs.Prelude.{◌≡◌, ◌+◌, ◌-◌, min};
    ghost use Rattle.std.proofs.Common.{arith};
    ghost use Rattle.pf_order.specs.Priority.{Priority, IsPriority};

    ghost Value = { Priority };

    ghost view = { λ k. record { deadline = k.deadline; bit = min k.urgency 1; group = k.urgency - 1; task = k.task; sub = k.sub } };

    ghost invariant = { λ k. IsPriority (record { deadline = k.deadline; bit = min k.urgency 1; group = k.urgency - 1; task = k.task; sub = k.sub }) };

    ghost inverse = { λ p. record { deadline = p.deadline; urgency = p.bit + p.group; task = p.task; sub = p.sub } };

    ghost inverse_ok = { λ k h i. record {
      deadline = k.deadline;
      urgency = let whole : min k.urgency 1 + (k.urgency - 1) ≡ k.urgency = omega arith in whole i;
      task = k.task;
      sub = k.sub;
    } };
}

impl Key {
    /// The key of subtask i (1 to 2^24) of the task (1 to 4,095) whose windows are shifted by `shift` slots (below
    /// 2^40).
    pub fn of(weight: Weight, shift: u64, i: u32, task: u32) -> Self
        requires first { 1 ≤ i }
        requires last { i ≤ 2 ^ 24 }
        requires task_some { 1 ≤ task }
        requires task_within { task ≤ LARGEST_TASK }
        requires shift { shift < 2 ^ 40 }
        ensures { result ≡ key_of weight shift i task }
    {
        let bit = bit(weight, i);
        let group = if weight.is_heavy() && bit == 1 {
            group(weight, i) + shift
        } else {
            0
        };
        Key {
            deadline: deadline(weight, i) + shift,
            urgency: bit + group,
            task,
            sub: i,
        }
    }

    /// The task's number, 1 to 4,095.
    pub fn task(&self) -> u32
        ensures value { result ≡ self.now.task }
        ensures key { IsPriority self.now }
    {
        self.task
    }

    /// The subtask's number, 1 to 2^24.
    pub fn sub(&self) -> u32
        ensures value { result ≡ self.now.sub }
        ensures key { IsPriority self.now }
    {
        self.sub
    }
}
