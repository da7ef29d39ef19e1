//! The windows of a task's subtasks: release, deadline, bit and group deadline, before any shift. Its one contract:
//! each call is its published definition.
//!
//! Times are slots counted from the task's start; subtasks are numbered from 1.
#![tactic(auto)]

pub mod windows;

ghost use Rattle.std.specs.Prelude.{◌≡◌, ◌^◌, ◌≤◌};
ghost use Rattle.pf_window.specs.Window.{release_of, deadline_of, bit_of};
ghost use Rattle.pf_window.specs.Group.{IsGroupOf, group_of};

use pf_weight::weight::Weight;

/// The release of subtask i, 1 to 2^24: the first slot of its window, floor((i - 1) * period / cost), at most 2^54.
///
/// Source: Baruah, Cohen, Plaxton and Varvel, "Proportionate progress: a notion of fairness in resource allocation",
/// Algorithmica 15, 1996.
#[tactic(auto, unfolding(crate::specs::Window::release_of))]
pub fn release(weight: Weight, i: u32) -> u64
    requires first { 1 ≤ i }
    requires last { i ≤ 2 ^ 24 }
    ensures value { result ≡ release_of weight i }
    ensures bound { result ≤ 2 ^ 54 }
{
    (u64::from(i) - 1) * weight.period() / weight.cost()
}

/// The deadline of subtask i, 1 to 2^24: the first slot after its window, ceil(i * period / cost), at most 2^54.
///
/// Source: Baruah, Cohen, Plaxton and Varvel, "Proportionate progress: a notion of fairness in resource allocation",
/// Algorithmica 15, 1996.
#[tactic(auto, unfolding(crate::specs::Window::deadline_of))]
pub fn deadline(weight: Weight, i: u32) -> u64
    requires first { 1 ≤ i }
    requires last { i ≤ 2 ^ 24 }
    ensures value { result ≡ deadline_of weight i }
    ensures bound { result ≤ 2 ^ 54 }
{
    (u64::from(i) * weight.period()).div_ceil(weight.cost())
}

/// The bit of subtask i, 1 to 2^24: 1 where its window and the next one share a slot, else 0;
/// ceil(i * period / cost) - floor(i * period / cost).
///
/// Source: Anderson and Srinivasan, "Early-release fair scheduling", ECRTS 2000.
#[tactic(auto, unfolding(crate::specs::Window::bit_of))]
pub fn bit(weight: Weight, i: u32) -> u64
    requires first { 1 ≤ i }
    requires last { i ≤ 2 ^ 24 }
    ensures value { result ≡ bit_of weight i }
    ensures bound { result ≤ 1 }
{
    let work = u64::from(i) * weight.period();
    work.div_ceil(weight.cost()) - work / weight.cost()
}

/// The group deadline of subtask i, 1 to 2^24: 0 for a light task; for a heavy one the first group deadline at or after
/// the subtask's deadline, a slot of at most 2^55. It takes a few divisions, however long the period.
///
/// Source of the definition: Anderson and Srinivasan, "Mixed Pfair/ERfair scheduling of asynchronous periodic tasks",
/// JCSS 68, 2004. That the quotients below give it is proved here.
pub fn group(weight: Weight, i: u32) -> u64
    requires first { 1 ≤ i }
    requires last { i ≤ 2 ^ 24 }
    ensures group { IsGroupOf weight i result }
    ensures value { result ≡ group_of weight i }
    ensures bound { result ≤ 2 ^ 55 }
{
    if !weight.is_heavy() {
        return 0;
    }
    let due = deadline(weight, i);
    let free = weight.period() - weight.cost();
    if free == 0 {
        return due;
    }
    ((due * free).div_ceil(weight.period()) * weight.period()).div_ceil(free)
}
