ghost use Rattle.std.specs.Prelude.{◌≡◌, ◌<◌, ℕ, [], All, IfOk, IfErr, IsTrue, OnOk, length, slice_index_or, vec_len};
ghost use Rattle.std.specs.List.{list_any};
ghost use Rattle.pf_drill.specs.Drilled.{IsHalt, Stops};
ghost use Rattle.pf_drill.specs.Gates.{HasTaken, IsToldOf, SomeArrived};
ghost use Rattle.pf_drill.specs.Rounds.{AreOfBoard, HasGiven, IsInStep, commands_given};
ghost use Rattle.pf_script_desk.specs.Asked.{lines_asked};

use crate::at_gate::AtGate;
use crate::gate::Gate;
use crate::lines::take_lines;
use crate::planner::Planner;
use crate::rounds::Rounds;
use crate::shift::Shift;
use crate::worker::Worker;
use csv::ByteRecord;
use pf_board::quantum::Quantum;
use pf_script::line_reader::LineReader;
use pf_share::calls::DeskPass;
use pf_share::locked::Locked;
use pf_share::naming::Naming;
use pf_share::shared::Shared;
use pf_vocabulary::fault::fault::Fault;
use std::alloc::{AllocError, Global};
use std::sync::Wait;
use std::thread::{PromisedHandle, Scope, Threads, join_promised, scope, scope_env};

/// A worker's thread.
type Hired<'s, G> = PromisedHandle<Shift, AtGate<'s, G>>;

/// Does what the lines ask for, while workers with these passes stay, and gives the planner back once none does.
///
/// # Errors
///
/// `BadRecord` at the first record that is none of the script's. `GateShut` where the gate was shut to a worker. `Unread` where
/// the history has other entries. `NoMemory` where memory or a thread is refused.
pub(crate) fn drill_staffed<
    'a,
    N: Naming + Send + Sync,
    H: Wait + Drop + Send,
    R: Threads + Wait + Sync,
    G: Gate + Sync,
>(
    rt: &'a R,
    alloc: Global,
    shared: &'a Shared<N, Locked<N, H>>,
    gate: &'a G,
    rounds: &'a Rounds,
    passes: Vec<DeskPass>,
    planner: Planner,
    lines: LineReader<'a>,
    row: ByteRecord,
) -> Result<Planner, Fault>
    requires passes { AreOfBoard N.board.id passes.items }
    requires step { IsInStep N.board.id N.board.terms planner }
    requires given { commands_given planner ≡ [] }
    ensures given { IfOk result (λ planner. HasGiven (G.lets_in gate.now) N.board.id N.board.terms lines.entry planner) }
    ensures stopped { IfErr result (Stops (SomeArrived (G.shuts_out gate.now)) (lines_asked N.board.terms lines.entry)) }
{
    scope(
        scope_env(),
        rt,
        |scope| -> Result<Planner, Fault>
            requires { AreOfBoard N.board.id passes.items × IsInStep N.board.id N.board.terms planner × (commands_given planner ≡ []) }
            ensures given { IfOk result (λ planner. HasGiven (G.lets_in gate.entry.now) N.board.id N.board.terms lines.entry planner) }
            ensures stopped { IfErr result (Stops (SomeArrived (G.shuts_out gate.entry.now)) (lines_asked N.board.terms lines.entry)) }
        {
            drill_in(
                scope, rt, alloc, shared, gate, rounds, passes, planner, lines, row,
            )
        },
    )
}

/// The same, with a scope for the workers' threads.
fn drill_in<
    's,
    E,
    N: Naming + Send + Sync,
    H: Wait + Drop + Send,
    R: Threads + Wait + Sync,
    G: Gate + Sync,
>(
    scope: &'s Scope<'s, E>,
    rt: &'s R,
    alloc: Global,
    shared: &'s Shared<N, Locked<N, H>>,
    gate: &'s G,
    rounds: &'s Rounds,
    passes: Vec<DeskPass>,
    mut planner: Planner,
    lines: LineReader,
    row: ByteRecord,
) -> Result<Planner, Fault>
    requires passes { AreOfBoard N.board.id passes.items }
    requires step { IsInStep N.board.id N.board.terms planner }
    requires given { commands_given planner ≡ [] }
    ensures given { IfOk result (λ planner. HasGiven (G.lets_in gate.now) N.board.id N.board.terms lines.entry planner) }
    ensures stopped { IfErr result (Stops (SomeArrived (G.shuts_out gate.now)) (lines_asked N.board.terms lines.entry)) }
{
    let Ok(workers) = hire(scope, rt, alloc, shared, gate, rounds, passes) else {
        rounds.end();
        return Err(Fault::NoMemory);
    };
    let done = take_lines(rt, shared, rounds, &mut planner, lines, row);
    rounds.end();
    let Ok(shifts) = join_promised(rt, workers) else {
        return Err(Fault::NoMemory);
    };
    if is_any_shut(&shifts) {
        return Err(Fault::GateShut);
    }
    match done {
        Ok(()) => (),
        Err(fault) => return Err(fault),
    }
    match check_taken(alloc, &planner.issued, &shifts) {
        Ok(()) => Ok(planner),
        Err(fault) => Err(fault),
    }
}

/// Starts a worker for each pass, in a thread of its own.
///
/// # Errors
///
/// Where memory or a thread is refused; the workers that were started stay.
fn hire<
    's,
    E,
    N: Naming + Send + Sync,
    H: Wait + Drop + Send,
    R: Threads + Wait + Sync,
    G: Gate + Sync,
>(
    scope: &'s Scope<'s, E>,
    rt: &'s R,
    alloc: Global,
    shared: &'s Shared<N, Locked<N, H>>,
    gate: &'s G,
    rounds: &'s Rounds,
    passes: Vec<DeskPass>,
) -> Result<Vec<Hired<'s, G>>, AllocError>
    requires { AreOfBoard N.board.id passes.items }
    ensures { IfOk result (λ hired. (k : ℕ) (d : _) → k < vec_len hired → (slice_index_or hired.items k d).promise.gate.now ≡ gate.now) }
{
    let mut hired = Vec::new(alloc);
    hired.reserve(passes.len())?;
    for pass in passes {
        hired.push(start(scope, rt, alloc, shared, gate, rounds, pass)?)?;
    }
    Ok(hired)
}

/// Starts the worker of a pass.
///
/// # Errors
///
/// Where a thread is refused.
fn start<
    's,
    E,
    N: Naming + Send + Sync,
    H: Wait + Drop + Send,
    R: Threads + Wait + Sync,
    G: Gate + Sync,
>(
    scope: &'s Scope<'s, E>,
    rt: &'s R,
    alloc: Global,
    shared: &'s Shared<N, Locked<N, H>>,
    gate: &'s G,
    rounds: &'s Rounds,
    pass: DeskPass,
) -> Result<Hired<'s, G>, AllocError>
    requires { pass.board ≡ N.board.id }
    ensures { IfOk result (λ hired. hired.promise.gate.now ≡ gate.now) }
{
    let stay = move || -> Shift
        requires { pass.board ≡ N.board.id }
        ensures { IsToldOf (G.lets_in gate.entry.now) (G.shuts_out gate.entry.now) result }
    { Worker::new(pass).stay(rt, alloc, shared, gate, rounds) };
    Ok(scope.spawn_with(AtGate { gate }, stay)?)
}

/// Whether the gate was shut to one of these workers.
fn is_any_shut(shifts: &[Shift]) -> bool
    ensures { result ≡ list_any (λ s. s.is_shut) shifts.now }
{
    shifts.iter().any(|shift| shift.is_shut)
}

/// Whether the workers took all that was issued, each the quanta of its processor in their order.
///
/// # Errors
///
/// `Unread` where one took another quantum, and `NoMemory`.
fn check_taken(alloc: Global, issued: &[Quantum], shifts: &[Shift]) -> Result<(), Fault>
    ensures taken { OnOk result (All (HasTaken shifts.now) issued.now) }
    ensures halt { IfErr result (IsHalt ⊥) }
{
    let Ok(mut counts) = Vec::from_elem(alloc, 0usize, shifts.len()) else {
        return Err(Fault::NoMemory);
    };
    for quantum in issued {
        if !is_next(quantum, shifts, &mut counts) {
            return Err(Fault::Unread);
        }
    }
    Ok(())
}

/// Whether the quantum is the next that its processor's worker took, of whose quanta so many were counted.
fn is_next(quantum: &Quantum, shifts: &[Shift], counts: &mut [usize]) -> bool
    ensures { IsTrue result → HasTaken shifts.now quantum.now }
{
    let worker = quantum.processor as usize;
    if worker >= shifts.len() || worker >= counts.len() {
        return false;
    }
    let count = counts[worker];
    if !stands_at(&shifts[worker].taken, count, quantum) {
        return false;
    }
    counts[worker] = count + 1;
    true
}

/// Whether the quantum stands at this place.
fn stands_at(taken: &[Quantum], at: usize, quantum: &Quantum) -> bool
    ensures { IsTrue result → (at < length taken.now) × (slice_index_or taken.now at quantum.now ≡ quantum.now) }
{
    at < taken.len() && taken[at] == *quantum
}
