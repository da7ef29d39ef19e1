ghost use Rattle.std.specs.Prelude.{◌≡◌};
ghost use Rattle.shared_load.specs.Soak.Seated.{IsSeated};

use crate::soak::calls::{edit, read, read_told, step, take};
use crate::soak::draws::{Draws, drawn_change};
use crate::soak::fault::Fault;
use pf_board::quantum::Quantum;
use pf_board::take::Take;
use pf_share::calls::DeskPass;
use pf_share::locked::Locked;
use pf_share::naming::Naming;
use pf_share::shared::Shared;
use pf_share::step_refusal::StepRefusal;
use pf_share::viewer::Viewer;
use std::sync::Wait;
use std::thread::yield_now;

/// Three planners, three dispatchers and two readers.
pub(crate) const THREADS: usize = 8;

/// So many commands of each planner and each dispatcher are answered.
pub(crate) const COMMANDS: u64 = 60;

/// The number of entries in the end.
pub(crate) const ENTRIES: u64 = 6 * COMMANDS;

/// The distance of the checkpoints, in slots.
pub(crate) const EVERY: u64 = 8;

/// A thread that takes so many turns gives up.
const TURNS: u64 = 10_000_000;

/// What a worker does.
#[derive(Clone, Copy, Debug, PartialEq, Eq)]
pub(crate) enum Role {
    Planner,
    Dispatcher,
    Reader,
}

/// The seat of a thread at the desk, and what it found.
#[derive(Drop)]
pub(crate) struct Worker {
    pub role: Role,
    pub pass: DeskPass,
    pub viewer: Viewer,
    pub draws: Draws,
    /// The quanta that it took.
    pub got: Vec<Quantum>,
    /// How many entries there were when its pass last saw them.
    pub found: u64,
    /// How many entries it read last.
    pub version: u64,
    /// The now that it read last.
    pub now: u64,
    /// The first thing that was wrong.
    pub fault: Option<Fault>,
}

impl Worker {
    /// Does all that is to be done in its role.
    pub(crate) fn work<N: Naming, H: Wait + Drop>(
        &mut self,
        rt: &impl Wait,
        shared: &Shared<N, Locked<N, H>>,
    )
        requires { IsSeated N.board N.book self.old }
        ensures { IsSeated N.board N.book self.new }
    {
        match self.role {
            Role::Planner => self.plan(rt, shared),
            Role::Dispatcher => self.dispatch(rt, shared),
            Role::Reader => self.follow(rt, shared),
        }
    }

    /// Makes changes, and reads before each.
    fn plan<N: Naming, H: Wait + Drop>(&mut self, rt: &impl Wait, shared: &Shared<N, Locked<N, H>>)
        requires { IsSeated N.board N.book self.old }
        ensures { IsSeated N.board N.book self.new }
    {
        for _ in 0..COMMANDS {
            self.read(rt, shared);
            let change = drawn_change(&mut self.draws, self.now);
            let strict = self.draws.below(4) == 0;
            match edit(rt, shared, &mut self.pass, change, strict) {
                Ok(entries) => self.find(entries),
                Err(_) => self.note(Fault::NoMemory),
            }
        }
    }

    /// Takes slots, and quanta before each.
    fn dispatch<N: Naming, H: Wait + Drop>(
        &mut self,
        rt: &impl Wait,
        shared: &Shared<N, Locked<N, H>>,
    )
        requires { IsSeated N.board N.book self.old }
        ensures { IsSeated N.board N.book self.new }
    {
        let mut steps = 0;
        for _ in 0..TURNS {
            if steps >= COMMANDS {
                return;
            }
            self.take_some(shared);
            match step(rt, shared, &mut self.pass) {
                Ok(entries) => {
                    self.find(entries);
                    steps += 1;
                }
                Err(StepRefusal::Pending { .. }) => yield_now(),
                Err(StepRefusal::NoMemory) => self.note(Fault::NoMemory),
            }
        }
        self.note(Fault::Stuck);
    }

    /// Takes the quanta of processors that are drawn, some of which the desk does not have.
    fn take_some<N: Naming, L: Drop>(&mut self, shared: &Shared<N, L>)
        requires { IsSeated N.board N.book self.old }
        ensures { IsSeated N.board N.book self.new }
    {
        for _ in 0..6 {
            let processor = self.draws.below(5);
            if let Take::Got(quantum) = take(shared, &mut self.pass, processor) {
                self.keep(quantum);
            }
        }
        let entries = shared.look(&mut self.pass);
        self.find(entries);
    }

    /// Reads until it read all entries.
    fn follow<N: Naming, H: Wait + Drop>(
        &mut self,
        rt: &impl Wait,
        shared: &Shared<N, Locked<N, H>>,
    )
        requires { IsSeated N.board N.book self.old }
        ensures { IsSeated N.board N.book self.new }
    {
        for _ in 0..TURNS {
            if self.version >= ENTRIES {
                return;
            }
            self.read(rt, shared);
            yield_now();
        }
        self.note(Fault::Stuck);
    }

    /// Reads a snapshot; one time in two it is to have all that the pass has seen.
    fn read<N: Naming, H: Wait + Drop>(&mut self, rt: &impl Wait, shared: &Shared<N, Locked<N, H>>)
        requires { IsSeated N.board N.book self.old }
        ensures { IsSeated N.board N.book self.new }
    {
        let is_told = self.draws.below(2) == 0;
        let shown = if is_told {
            let entries = shared.look(&mut self.pass);
            self.find(entries);
            read_told(rt, shared, &mut self.pass, &mut self.viewer)
        } else {
            read(shared, &mut self.viewer)
        };
        match shown {
            Some((version, now)) => self.see(version, now, is_told),
            None => self.note(Fault::NoMemory),
        }
    }

    /// Keeps a quantum that it took.
    fn keep(&mut self, quantum: Quantum)
        ensures { (self.new.pass ≡ self.old.pass) × (self.new.viewer ≡ self.old.viewer) }
    {
        if self.got.push(quantum).is_err() {
            self.note(Fault::NoMemory);
        }
    }

    /// The pass has seen so many entries.
    fn find(&mut self, entries: u64)
        ensures { (self.new.pass ≡ self.old.pass) × (self.new.viewer ≡ self.old.viewer) }
    {
        if entries < self.found {
            self.note(Fault::Fell);
        }
        self.found = entries;
    }

    /// The viewer read this, where it may have been told what the pass has seen.
    fn see(&mut self, version: u64, now: u64, is_told: bool)
        ensures { (self.new.pass ≡ self.old.pass) × (self.new.viewer ≡ self.old.viewer) }
    {
        let is_less = version < self.version || now < self.now;
        if is_less || (is_told && version < self.found) {
            self.note(Fault::Fell);
        }
        self.version = version;
        self.now = now;
    }

    /// Keeps what was wrong first.
    fn note(&mut self, fault: Fault)
        ensures { (self.new.pass ≡ self.old.pass) × (self.new.viewer ≡ self.old.viewer) }
    {
        if self.fault.is_none() {
            self.fault = Some(fault);
        }
    }
}
