ghost use Rattle.std.specs.Prelude.{◌≡◌, ◌+◌, ◌-◌, ◌%◌, ◌^◌, ◌<◌, ◌≤◌, All, length, IfOk};
ghost use Rattle.pf_weight.specs.Share.{IsShare};
ghost use Rattle.pf_scenario.specs.declared.settings.TheConstants.{WIDE_HORIZON};
ghost use Rattle.pf_tally.specs.Held.{AreSuccessive, IsSmall};
ghost use Rattle.pf_tally.specs.Figures.{response_of, responses_from};
ghost use Rattle.pf_tally.specs.Late.{CanMiss, released_at};

use crate::admitted::Admitted;
use crate::held::Held;
use crate::late::released_of;
use std::alloc::{AllocError, Global};

/// How long the job that ends with subtask i, in this slot, took from the release of its first subtask.
fn response_of(task: Admitted, delays: &[Held], i: u32, slot: u64) -> i64
    requires share { IsShare task.weight }
    requires chain { AreSuccessive 0 task.slot delays.now }
    requires small { All IsSmall delays.now }
    requires joined { task.slot < WIDE_HORIZON }
    requires within { i ≤ WIDE_HORIZON }
    requires first { 1 ≤ i }
    requires last { i % task.weight.cost ≡ 0 }
    requires slot { slot < WIDE_HORIZON }
    ensures { result ≡ response_of (released_at task delays.now) task.weight.cost i slot }
{
    let first = u64::from(i) + 1 - task.weight.cost();
    (slot + 1) as i64 - released_of(task, delays, first as u32) as i64
}

/// The responses of the jobs of a task that ran in these slots.
pub(crate) fn responses(
    alloc: Global,
    task: Admitted,
    slots: &[u64],
    delays: &[Held],
) -> Result<Vec<i64>, AllocError>
    requires can { CanMiss task delays.now (length slots.now) }
    requires slots { All (λ t. t < WIDE_HORIZON) slots.now }
    ensures { IfOk result (λ v. v.items ≡ responses_from (released_at task delays.now) task.weight.cost 1 slots.now) }
{
    let cost = task.weight.cost();
    let mut responses = Vec::new(alloc);
    let mut i = 1;
    for slot in slots {
        if u64::from(i) % cost == 0 {
            responses.push(response_of(task, delays, i, *slot))?;
        }
        i += 1;
    }
    Ok(responses)
}
