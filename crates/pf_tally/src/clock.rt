ghost use Rattle.std.specs.Prelude.{◌≡◌, ◌+◌, ◌-◌, ◌≤◌, All};
ghost use Rattle.pf_weight.specs.Share.{IsShare};
ghost use Rattle.pf_scenario.specs.declared.settings.TheConstants.{WIDE_HORIZON};
ghost use Rattle.pf_tally.specs.Held.{AreSuccessive, IsSmall, part_of, stop_of, stopped_below};
ghost use Rattle.pf_tally.specs.Ranges.{lag_with};

use crate::admitted::Admitted;
use crate::held::Held;
use pf_weight::weight::Weight;
use pf_window::release;

/// How many slots below `now` the delay stops the clock of a task of this weight.
fn stopped(weight: Weight, held: Held, now: u64) -> u64
    requires { IsSmall held }
    ensures { result ≡ part_of now (stop_of weight held) }
{
    let start = release(weight, held.sub as u32) + held.shift;
    let end = start + held.by;
    end.min(now) - start.min(now)
}

/// The task's clock at `now`: the slots since its join in which no delay stops it.
pub(crate) fn clock_at(task: Admitted, delays: &[Held], now: u64) -> u64
    requires joined { task.slot ≤ now }
    requires small { All IsSmall delays.now }
    requires apart { stopped_below now task.weight delays.now ≤ now - task.slot }
    ensures { result + stopped_below now task.weight delays.now ≡ now - task.slot }
{
    let mut clock = now - task.slot;
    for held in delays {
        clock -= stopped(task.weight, *held, now);
    }
    clock
}

/// The lag of the task after the first t slots, times its period. It received so many quanta in them.
pub fn lag_after(task: Admitted, received: u64, delays: &[Held], t: u64) -> i64
    requires share { IsShare task.weight }
    requires chain { AreSuccessive 0 task.slot delays.now }
    requires small { All IsSmall delays.now }
    requires joined { task.slot ≤ t }
    requires within { t ≤ WIDE_HORIZON }
    requires few { received ≤ WIDE_HORIZON }
    ensures { result ≡ lag_with task delays.now received t }
{
    let owed = task.weight.cost() * clock_at(task, delays, t);
    let had = task.weight.period() * received;
    owed as i64 - had as i64
}
