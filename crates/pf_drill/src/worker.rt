ghost use Rattle.std.specs.Prelude.{◌≡◌, IfNone, IfSome};
ghost use Rattle.pf_drill.specs.Gates.{Arrives, IsToldOf};
ghost use Rattle.pf_drill.specs.Rounds.{Grabs, Works, new_worker};

use crate::gate::Gate;
use crate::rounds::Rounds;
use crate::shift::Shift;
use pf_board::quantum::Quantum;
use pf_board::take::Take;
use pf_share::calls::DeskPass;
use pf_share::naming::Naming;
use pf_share::shared::Shared;
use std::alloc::Global;
use std::sync::Wait;

/// A worker of a shared desk, who takes the quanta of the processor of the pass's number.
#[derive(Drop)]
pub struct Worker {
    pub pass: DeskPass,
    /// What it took last.
    pub got: Option<Quantum>,
    /// Whether the gate was shut to it then.
    pub is_shut: bool,
}

impl Worker {
    /// One that took nothing yet.
    pub fn new(pass: DeskPass) -> Self
        ensures { result ≡ new_worker pass }
    {
        Worker {
            pass,
            got: None,
            is_shut: false,
        }
    }

    /// Works in each round until none follows, and tells what it took. In a round it gives up where the gate is shut to it or memory
    /// is refused.
    pub(crate) fn stay<N: Naming, L: Drop, G: Gate>(
        mut self,
        rt: &impl Wait,
        alloc: Global,
        shared: &Shared<N, L>,
        gate: &G,
        rounds: &Rounds,
    ) -> Shift
        requires { self.pass.board ≡ N.board.id }
        ensures { IsToldOf (G.lets_in gate.now) (G.shuts_out gate.now) result }
    {
        let mut shift = Shift::new(alloc);
        let mut is_odd = false;
        for _ in rt.forever() {
            if !rounds.wait_for_next(rt, is_odd) {
                return shift;
            }
            is_odd = !is_odd;
            let gives_up = !self.serve(shared, gate, &mut shift);
            rounds.come_back(gives_up);
        }
        unreachable!()
    }

    /// Works, and adds to what it will tell. Whether it was let in with what it took, and memory for that was given.
    fn serve<N: Naming, L: Drop, G: Gate>(
        &mut self,
        shared: &Shared<N, L>,
        gate: &G,
        shift: &mut Shift,
    ) -> bool
        requires pass { self.old.pass.board ≡ N.board.id }
        requires told { IsToldOf (G.lets_in gate.now) (G.shuts_out gate.now) shift.old }
        ensures pass { self.new.pass.board ≡ N.board.id }
        ensures told { IsToldOf (G.lets_in gate.now) (G.shuts_out gate.now) shift.new }
    {
        self.work(shared, gate);
        if self.is_shut {
            shift.is_shut = true;
            return false;
        }
        match self.got {
            Some(quantum) => shift.taken.push(quantum).is_ok(),
            None => true,
        }
    }

    /// Takes the quantum of its processor where one lies there, and arrives with it at the gate.
    pub fn work<N: Naming, L: Drop, G: Gate>(&mut self, shared: &Shared<N, L>, gate: &G)
        requires { self.old.pass.board ≡ N.board.id }
        ensures works { Works self.old self.new }
        ensures arrives { Arrives (G.lets_in gate.now) (G.shuts_out gate.now) self.new }
    {
        self.got = take_quantum(shared, &mut self.pass);
        self.is_shut = match self.got {
            Some(quantum) => !gate.arrive(self, &quantum),
            None => false,
        };
    }
}

/// Takes the quantum of the processor of the pass's number, where one lies there.
fn take_quantum<N: Naming, L: Drop>(shared: &Shared<N, L>, pass: &mut DeskPass) -> Option<Quantum>
    requires { pass.old.board ≡ N.board.id }
    ensures some { IfSome result (λ quantum. Grabs pass.old quantum pass.new) }
    ensures none { IfNone result (pass.new ≡ record pass.old { loads = pass.new.loads }) }
{
    let processor = pass.me();
    match shared.take(pass, processor) {
        Take::Got(quantum) => Some(quantum),
        _ => None,
    }
}
