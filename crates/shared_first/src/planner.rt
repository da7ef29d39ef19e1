ghost use Rattle.std.specs.Prelude.{◌≡◌, []};
ghost use Rattle.shared_first.specs.Handed.{Took};

use crate::turns::TURNS;
use pf_scenario::change::Change;
use pf_scenario::event::Event;
use pf_share::calls::DeskPass;
use pf_share::locked::Locked;
use pf_share::naming::Naming;
use pf_share::shared::Shared;
use pf_share::step_refusal::StepRefusal;
use std::sync::Wait;
use std::thread::yield_now;

/// A join in slot 0 of a task that asks for two quanta in each three slots.
fn join(task: u64) -> Change {
    Change::Insert(Event::Join {
        slot: 0,
        task,
        cost: 2,
        period: 3,
        early: 0,
    })
}

/// Has so many tasks join, numbered from 1, or fewer where memory is refused.
pub(crate) fn insert<N: Naming, H: Wait + Drop>(
    rt: &impl Wait,
    shared: &Shared<N, Locked<N, H>>,
    mut pass: DeskPass,
    tasks: u64,
) -> DeskPass
    requires { Took N.board.id [] pass }
    ensures { Took N.board.id [] result }
{
    for task in 0..tasks {
        let Ok(_) = shared.edit(rt, &mut pass, join(task + 1), false) else {
            break;
        };
    }
    pass
}

/// Takes the next slot, once each quantum of the last one was taken. False where memory is refused, or the quanta stay.
fn step<N: Naming, H: Wait + Drop>(
    rt: &impl Wait,
    shared: &Shared<N, Locked<N, H>>,
    pass: &mut DeskPass,
) -> bool
    requires { Took N.board.id [] pass.old }
    ensures { Took N.board.id [] pass.new }
{
    for _ in 0..TURNS {
        match shared.step(rt, pass) {
            Ok(_) => return true,
            Err(StepRefusal::Pending { .. }) => yield_now(),
            Err(StepRefusal::NoMemory) => return false,
        }
    }
    false
}

/// Takes so many slots, or fewer where memory is refused.
pub(crate) fn plan<N: Naming, H: Wait + Drop>(
    rt: &impl Wait,
    shared: &Shared<N, Locked<N, H>>,
    mut pass: DeskPass,
    slots: u64,
) -> DeskPass
    requires { Took N.board.id [] pass }
    ensures { Took N.board.id [] result }
{
    for _ in 0..slots {
        if !step(rt, shared, &mut pass) {
            break;
        }
    }
    pass
}
