ghost use Rattle.std.specs.Prelude.{◌≡◌, ◌≤◌, ◌<◌, All, IfOk, length};
ghost use Rattle.pf_convert.specs.Margins.Fitting.{IsPlan};
ghost use Rattle.pf_convert.specs.Margins.Margins.{AreMarginsOf, IsMarginOf, IsMarginsOf, fail_of};
ghost use Rattle.pf_convert.specs.Slots.{IsQuantum, IsTimed};
ghost use Rattle.pf_convert.specs.Smooth.{AreDivisors};

use crate::divisors::divisors_of;
use crate::margins::margin::Margin;
use crate::margins::periods::least_period;
use crate::margins::switches::most_switch;
use crate::margins::works::most_work;
use crate::plan::Plan;
use crate::planning::needed_processors;
use crate::quantum::Quantum;
use crate::timed::Timed;
use std::alloc::{AllocError, Global};

/// How far each number of a plan may go, the others as they are.
#[derive(Drop)]
pub struct Margins {
    /// Those of each task, in the order of the tasks.
    pub tasks: Vec<Margin>,
    /// The longest switch for which there is room, in nanoseconds; none where there is room for none.
    pub switch: Option<u64>,
    /// The fewest processors that serve the plan.
    pub processors: u64,
    /// How many of the processors may fail, none where there are too few.
    pub fail: Option<u64>,
}

impl Margins {
    /// The margins of a plan on so many processors, in slots of a quantum, of tasks with these times.
    ///
    /// # Errors
    ///
    /// Where memory is refused.
    pub fn of(
        alloc: Global,
        processors: u64,
        quantum: Quantum,
        times: &[Timed],
        plan: &Plan,
    ) -> Result<Margins, AllocError>
        requires processors { processors ≤ 64 }
        requires quantum { IsQuantum quantum }
        requires timed { All IsTimed times.now }
        requires plan { IsPlan plan.now }
        requires as_many { length times.now ≡ length plan.now.tasks.items }
        ensures { IfOk result (IsMarginsOf processors quantum times.now plan.now) }
    {
        let needed = needed_processors(plan.base, plan.load);
        let switch = most_switch(processors, quantum.length, times, plan);
        let divisors = divisors_of(alloc, plan.base)?;
        Ok(Margins {
            tasks: margins_of(alloc, processors, quantum, plan, &divisors)?,
            switch,
            processors: needed,
            fail: fail_of(processors, needed),
        })
    }
}

/// How many of the processors may fail where so many are needed, none where there are too few.
fn fail_of(processors: u64, needed: u64) -> Option<u64>
    ensures { result ≡ fail_of processors needed }
{
    if needed <= processors {
        Some(processors - needed)
    } else {
        None
    }
}

/// The margins of each task.
fn margins_of(
    alloc: Global,
    processors: u64,
    quantum: Quantum,
    plan: &Plan,
    divisors: &[u64],
) -> Result<Vec<Margin>, AllocError>
    requires processors { processors ≤ 64 }
    requires quantum { IsQuantum quantum }
    requires plan { IsPlan plan.now }
    requires divisors { AreDivisors plan.now.base divisors.now }
    ensures { IfOk result (λ margins. AreMarginsOf processors quantum plan.now (length plan.now.tasks.items) margins.items) }
{
    let mut margins = Vec::new(alloc);
    for place in 0..plan.tasks.len() {
        margins.push(margin_at(processors, quantum, plan, divisors, place))?;
    }
    Ok(margins)
}

/// The margins of the task at a place.
fn margin_at(
    processors: u64,
    quantum: Quantum,
    plan: &Plan,
    divisors: &[u64],
    place: usize,
) -> Margin
    requires processors { processors ≤ 64 }
    requires quantum { IsQuantum quantum }
    requires plan { IsPlan plan.now }
    requires divisors { AreDivisors plan.now.base divisors.now }
    requires place { place < length plan.now.tasks.items }
    ensures { IsMarginOf processors quantum plan.now place result }
{
    Margin {
        most: most_work(processors, quantum, plan, place),
        least: least_period(processors, plan, divisors, place),
    }
}
