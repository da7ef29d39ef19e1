ghost use Rattle.std.specs.Prelude.{◌≡◌, false, filter_map, All, AllPairs, IfOk};
ghost use Rattle.pf_scenario.specs.Edit.{IsEvent, join_alike};
ghost use Rattle.pf_run.specs.Inside.{joined_by, join_of};
ghost use Rattle.pf_tally.specs.Lags.{by_task};

use pf_scenario::event::{Event, Numbered};
use pf_scenario::settings::Settings;
use pf_weight::weight::Weight;
use std::alloc::{AllocError, Global};
use std::marker::Model;

/// A task as its join brought it.
#[derive(Clone, Copy)]
pub struct Admitted {
    /// Its number, 1 to 4,095.
    pub task: u64,
    /// The slot of its join.
    pub slot: u64,
    /// The part of a processor that it asks for.
    pub weight: Weight,
    /// By how many slots its subtasks may run before their release.
    pub early: u64,
}

impl Model for Admitted {
    ghost use Rattle.pf_run.specs.Inside.{Joined};

    ghost Value = { Joined };

    ghost view = { λ a. record { task = a.task; slot = a.slot; weight = a.weight; early = a.early } };

    ghost inverse = { λ j. record { task = j.task; slot = j.slot; weight = j.weight; early = j.early } };
}

/// The task that the event brings, if it is a join.
fn admitted_by(settings: Settings, event: &Event) -> Option<Admitted>
    requires { IsEvent settings event.now }
    ensures { result ≡ joined_by settings.base event.now }
{
    match *event {
        Event::Join {
            slot,
            task,
            cost,
            period,
            early,
        } => match Weight::new(settings.base(), cost, period) {
            Ok(weight) => Some(Admitted {
                task,
                slot,
                weight,
                early,
            }),
            Err(_) => unreachable!(),
        },
        _ => None,
    }
}

/// The tasks that these events bring, in their order.
pub(crate) fn admitted_tasks(
    alloc: Global,
    settings: Settings,
    events: &[Numbered],
) -> Result<Vec<Admitted>, AllocError>
    requires { All (λ x. IsEvent settings x.event) events.now }
    ensures { IfOk result (λ v. v.items ≡ filter_map (join_of settings.base) events.now) }
{
    let mut admitted = Vec::new(alloc);
    for numbered in events {
        if let Some(task) = admitted_by(settings, &numbered.event) {
            admitted.push(task)?;
        }
    }
    Ok(admitted)
}

/// The tasks that these events bring, by number.
pub fn admitted_by_number(
    alloc: Global,
    settings: Settings,
    events: &[Numbered],
) -> Result<Vec<Admitted>, AllocError>
    requires limits { All (λ x. IsEvent settings x.event) events.now }
    requires once { AllPairs (λ x y. join_alike x.event y.event ≡ false) events.now }
    ensures { IfOk result (λ v. v.items ≡ by_task (filter_map (join_of settings.base) events.now)) }
{
    let mut tasks = admitted_tasks(alloc, settings, events)?;
    tasks.sort_unstable_by_key(|task| task.task);
    Ok(tasks)
}
