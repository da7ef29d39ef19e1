ghost use Rattle.std.specs.Prelude.{◌≡◌, ◌==◌, ◌≤◌, not, IfOk, OnOk, filter, sum_by};
ghost use Rattle.pf_scenario.specs.Edit.{IsEvent};
ghost use Rattle.pf_scenario.specs.declared.settings.TheConstants.{LARGEST_CAP};
ghost use Rattle.pf_tally.specs.Asking.{asking_after};

use pf_scenario::event::Event;
use pf_scenario::settings::Settings;
use pf_weight::weight::Weight;
use std::alloc::{AllocError, Global};

/// A task inside, by what it asks of each slot.
#[derive(Clone, Copy, Debug)]
pub(crate) struct Asking {
    pub task: u64,
    /// In units of 1/h.
    pub units: u64,
}

/// The units that these ask for, together.
pub(crate) fn load_of(asking: &[Asking]) -> u64
    requires { sum_by (λ a. a.units) asking.now ≤ LARGEST_CAP }
    ensures { result ≡ sum_by (λ a. a.units) asking.now }
{
    let mut load = 0;
    for one in asking {
        load += one.units;
    }
    load
}

/// Those of other tasks.
fn without(alloc: Global, asking: &[Asking], task: u64) -> Result<Vec<Asking>, AllocError>
    ensures { IfOk result (λ v. v.items ≡ filter (λ a. not (a.task == task)) asking.now) }
{
    let mut others = Vec::new(alloc);
    for one in asking {
        if one.task != task {
            others.push(*one)?;
        }
    }
    Ok(others)
}

/// The event takes effect on the tasks inside.
pub(crate) fn take_event(
    alloc: Global,
    asking: &mut Vec<Asking>,
    settings: Settings,
    event: &Event,
) -> Result<(), AllocError>
    requires { IsEvent settings event.now }
    ensures { OnOk result (asking.new.items ≡ asking_after settings.base event.now asking.old.items) }
{
    match *event {
        Event::Join {
            task,
            cost,
            period,
            ..
        } => match Weight::new(settings.base(), cost, period) {
            Ok(weight) => {
                let units = weight.units();
                asking.push(Asking { task, units })?;
                Ok(())
            }
            Err(_) => unreachable!(),
        },
        Event::Leave { task, .. } => {
            *asking = without(alloc, asking, task)?;
            Ok(())
        }
        _ => Ok(()),
    }
}
