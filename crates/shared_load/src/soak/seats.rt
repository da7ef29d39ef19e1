//! The passes and viewers of a desk, handed to workers and handed back.
ghost use Rattle.std.specs.Prelude.{◌≡◌, All, IfSome};
ghost use Rattle.pf_board.specs.Passes.{AreOf};
ghost use Rattle.pf_share.specs.Locked.{origin_of};
ghost use Rattle.shared_load.specs.Soak.Seated.{IsSeated};

use crate::soak::draws::Draws;
use crate::soak::fault::Fault;
use crate::soak::worker::{Role, THREADS, Worker};
use pf_board::quantum::Quantum;
use pf_share::calls::DeskPass;
use pf_share::naming::Naming;
use pf_share::viewer::Viewer;
use std::alloc::Global;

/// What workers hand back: their passes and viewers, the quanta that they took, and what was wrong.
#[derive(Drop)]
pub(crate) struct Back {
    pub passes: Vec<DeskPass>,
    pub viewers: Vec<Viewer>,
    pub got: Vec<Quantum>,
    pub fault: Option<Fault>,
}

/// The last pass.
#[tactic(auto, using(crate::proofs::SoakLemmas::Boarded::front_of, crate::proofs::SoakLemmas::Boarded::last_of))]
fn pop<N: Naming>(passes: &mut Vec<DeskPass>) -> Option<DeskPass>
    requires { AreOf N.board.id passes.old.items }
    ensures rest { AreOf N.board.id passes.new.items }
    ensures board { IfSome result (λ p. p.board ≡ N.board.id) }
{
    passes.pop()
}

/// The last viewer.
fn pop_viewer<N: Naming>(viewers: &mut Vec<Viewer>) -> Option<Viewer>
    requires { All (λ v. v.origin ≡ origin_of N.board N.book) viewers.old.items }
    ensures rest { All (λ v. v.origin ≡ origin_of N.board N.book) viewers.new.items }
    ensures viewer { IfSome result (λ v. v.origin ≡ origin_of N.board N.book) }
{
    viewers.pop()
}

/// The last worker.
fn pop_worker<N: Naming>(workers: &mut Vec<Worker>) -> Option<Worker>
    requires { All (IsSeated N.board N.book) workers.old.items }
    ensures rest { All (IsSeated N.board N.book) workers.new.items }
    ensures worker { IfSome result (IsSeated N.board N.book) }
{
    workers.pop()
}

/// What the worker of this number does.
fn role_of(number: usize) -> Role {
    match number {
        0..=2 => Role::Planner,
        3..=5 => Role::Dispatcher,
        _ => Role::Reader,
    }
}

/// A worker, who draws by a stream of its own.
fn seat<N: Naming>(
    alloc: Global,
    seed: u64,
    number: usize,
    pass: DeskPass,
    viewer: Viewer,
) -> Worker
    requires { (pass.board ≡ N.board.id) × (viewer.origin ≡ origin_of N.board N.book) }
    ensures { IsSeated N.board N.book result }
{
    Worker {
        role: role_of(number),
        pass,
        viewer,
        draws: Draws::new(seed.wrapping_mul(8).wrapping_add(number as u64)),
        got: Vec::new(alloc),
        found: 0,
        version: 0,
        now: 0,
        fault: None,
    }
}

/// One more worker. None where memory is refused.
#[tactic(auto, using(crate::proofs::SoakLemmas::Seating::more_seated))]
fn add<N: Naming>(mut workers: Vec<Worker>, worker: Worker) -> Option<Vec<Worker>>
    requires workers { All (IsSeated N.board N.book) workers.items }
    requires worker { IsSeated N.board N.book worker }
    ensures { IfSome result (λ w. All (IsSeated N.board N.book) w.items) }
{
    match workers.push(worker) {
        Ok(()) => Some(workers),
        Err(_) => None,
    }
}

/// A worker for each thread. None where there are too few passes or viewers, or memory is refused.
pub(crate) fn seat_all<N: Naming>(
    alloc: Global,
    seed: u64,
    mut passes: Vec<DeskPass>,
    mut viewers: Vec<Viewer>,
) -> Option<Vec<Worker>>
    requires passes { AreOf N.board.id passes.items }
    requires viewers { All (λ v. v.origin ≡ origin_of N.board N.book) viewers.items }
    ensures { IfSome result (λ w. All (IsSeated N.board N.book) w.items) }
{
    let mut workers = Vec::new(alloc);
    for number in 0..THREADS {
        let pass = pop::<N>(&mut passes)?;
        let viewer = pop_viewer::<N>(&mut viewers)?;
        let worker = seat::<N>(alloc, seed, number, pass, viewer);
        workers = add::<N>(workers, worker)?;
    }
    Some(workers)
}

/// A pass, put back.
#[tactic(auto, using(crate::proofs::SoakLemmas::Boarded::more))]
fn put_pass<N: Naming>(mut passes: Vec<DeskPass>, pass: DeskPass) -> Option<Vec<DeskPass>>
    requires passes { AreOf N.board.id passes.items }
    requires board { pass.board ≡ N.board.id }
    ensures { IfSome result (λ v. AreOf N.board.id v.items) }
{
    match passes.push(pass) {
        Ok(()) => Some(passes),
        Err(_) => None,
    }
}

/// Puts back what a worker has. None where memory is refused.
fn put<N: Naming>(back: Back, worker: Worker) -> Option<Back>
    requires back { AreOf N.board.id back.passes.items }
    requires worker { IsSeated N.board N.book worker }
    ensures { IfSome result (λ b. AreOf N.board.id b.passes.items) }
{
    let Worker {
        pass,
        viewer,
        got: mut more,
        fault: other,
        ..
    } = worker;
    let Back {
        passes,
        mut viewers,
        mut got,
        fault,
    } = back;
    let passes = put_pass::<N>(passes, pass)?;
    if viewers.push(viewer).is_err() || got.append(&mut more).is_err() {
        return None;
    }
    Some(Back {
        passes,
        viewers,
        got,
        fault: fault.or(other),
    })
}

/// What all workers hand back. None where memory is refused.
pub(crate) fn put_all<N: Naming>(alloc: Global, mut workers: Vec<Worker>) -> Option<Back>
    requires { All (IsSeated N.board N.book) workers.items }
    ensures { IfSome result (λ b. AreOf N.board.id b.passes.items) }
{
    let mut back = Back {
        passes: Vec::new(alloc),
        viewers: Vec::new(alloc),
        got: Vec::new(alloc),
        fault: None,
    };
    for _ in 0..THREADS {
        let worker = pop_worker::<N>(&mut workers)?;
        back = put::<N>(back, worker)?;
    }
    Some(back)
}
