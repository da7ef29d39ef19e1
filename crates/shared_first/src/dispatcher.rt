ghost use Rattle.std.specs.Prelude.{◌≡◌, [], IsTrue, IfSome};
ghost use Rattle.shared_first.specs.Handed.{Took};

use crate::turns::TURNS;
use pf_board::quantum::Quantum;
use pf_board::take::Take;
use pf_share::calls::DeskPass;
use pf_share::naming::Naming;
use pf_share::shared::Shared;
use std::thread::yield_now;

/// A dispatcher's pass, and the quanta that it handed out.
pub(crate) type Dispatched = (DeskPass, Vec<Quantum>);

/// Takes the quantum of a processor, if one is there, and lists it. False where memory is refused.
fn take<N: Naming, L: Drop>(
    shared: &Shared<N, L>,
    pass: &mut DeskPass,
    processor: u32,
    quanta: &mut Vec<Quantum>,
) -> bool
    requires { Took N.board.id quanta.old.items pass.old }
    ensures { IsTrue result → Took N.board.id quanta.new.items pass.new }
{
    match shared.take(pass, processor) {
        Take::Got(quantum) => quanta.push(quantum).is_ok(),
        _ => {
            yield_now();
            true
        }
    }
}

/// Hands out so many quanta of a processor as they come, and lists them. None where memory is refused.
pub(crate) fn dispatch<N: Naming, L: Drop>(
    rt: &impl AllocGlobal,
    shared: &Shared<N, L>,
    mut pass: DeskPass,
    processor: u32,
    wanted: usize,
) -> Option<Dispatched>
    requires { Took N.board.id [] pass }
    ensures { IfSome result (λ r. Took N.board.id r.1.items r.0) }
{
    let mut quanta = Vec::new(rt.alloc());
    for _ in 0..TURNS {
        if quanta.len() >= wanted {
            break;
        }
        if !take(shared, &mut pass, processor, &mut quanta) {
            return None;
        }
    }
    Some((pass, quanta))
}
