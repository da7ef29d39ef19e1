ghost use Rattle.std.specs.Prelude.{◌≡◌, ◌++◌, ◌∷◌, [], IfOk, IfErr, OnOk};
ghost use Rattle.pf_board.specs.Passes.{new_pass};
ghost use Rattle.pf_desk.specs.declared.command.Command.TheVariants.{Step};
ghost use Rattle.pf_drill.specs.Drilled.{IsHalt};
ghost use Rattle.pf_drill.specs.Rounds.{GoesOn, IsInStep, commands_given};
ghost use Rattle.pf_share.specs.Histories.{quanta_from, quanta_of_reply};

use crate::rounds::Rounds;
use pf_board::quantum::Quantum;
use pf_desk::command::Command;
use pf_desk::reply::Reply;
use pf_order::pick::Pick;
use pf_place::row::Row;
use pf_share::calls::DeskPass;
use pf_share::done::Done;
use pf_share::locked::Locked;
use pf_share::naming::Naming;
use pf_share::shared::Shared;
use pf_share::step_refusal::StepRefusal;
use pf_vocabulary::fault::fault::Fault;
use std::alloc::{AllocError, Global};
use std::sync::Wait;
use std::thread::yield_now;

/// Who gives the commands of a drill.
#[derive(Drop)]
pub struct Planner {
    pub pass: DeskPass,
    /// How many commands were answered: all entries of the history are the planner's.
    pub answered: u64,
    /// What the steps issued, by slot, then by processor.
    pub issued: Vec<Quantum>,
}

impl Planner {
    /// That of a desk that was just opened, by this pass.
    pub fn new<N: Naming>(alloc: Global, pass: DeskPass) -> Self
        requires { pass ≡ new_pass N.board.id N.board.terms pass.me }
        ensures step { IsInStep N.board.id N.board.terms result }
        ensures given { commands_given result ≡ [] }
    {
        Planner {
            pass,
            answered: 0,
            issued: Vec::new(alloc),
        }
    }

    /// Does what a command asks for. After a step all workers do a round.
    ///
    /// # Errors
    ///
    /// `NoMemory` where memory is refused, or a worker gave up; `Unread` where the history has other entries.
    pub(crate) fn answer<N: Naming, H: Wait + Drop>(
        &mut self,
        rt: &impl Wait,
        shared: &Shared<N, Locked<N, H>>,
        rounds: &Rounds,
        command: Command,
    ) -> Result<(), Fault>
        requires { IsInStep N.board.id N.board.terms self.old }
        ensures step { OnOk result (IsInStep N.board.id N.board.terms self.new) }
        ensures commands { OnOk result (commands_given self.new ≡ commands_given self.old ++ command ∷ []) }
        ensures halt { IfErr result (IsHalt ⊥) }
    {
        let is_step = match self.enter(rt, shared, command) {
            Ok(is_step) => is_step,
            Err(fault) => return Err(fault),
        };
        if is_step && !rounds.run(rt) {
            return Err(Fault::NoMemory);
        }
        Ok(())
    }

    /// Enters a command, and notes what it issues. Whether it took a slot.
    fn enter<N: Naming, H: Wait + Drop>(
        &mut self,
        rt: &impl Wait,
        shared: &Shared<N, Locked<N, H>>,
        command: Command,
    ) -> Result<bool, Fault>
        requires { IsInStep N.board.id N.board.terms self.old }
        ensures step { OnOk result (IsInStep N.board.id N.board.terms self.new) }
        ensures commands { OnOk result (commands_given self.new ≡ commands_given self.old ++ command ∷ []) }
        ensures halt { IfErr result (IsHalt ⊥) }
    {
        let Ok(done) = enter_as(rt, shared, &mut self.pass, command) else {
            return Err(Fault::NoMemory);
        };
        if done.front - 1 != self.answered {
            return Err(Fault::Unread);
        }
        self.answered = done.front;
        let Ok(()) = note_issued(&mut self.issued, &done.reply) else {
            return Err(Fault::NoMemory);
        };
        Ok(matches!(done.reply, Reply::Stepped { .. }))
    }
}

/// Puts the quanta of a reply after those issued before.
///
/// # Errors
///
/// Where memory is refused.
fn note_issued(issued: &mut Vec<Quantum>, reply: &Reply) -> Result<(), AllocError>
    ensures { OnOk result (issued.new.items ≡ issued.old.items ++ quanta_of_reply reply.now) }
{
    match reply {
        Reply::Stepped { slot, row } => note_row(issued, *slot, row),
        _ => Ok(()),
    }
}

/// Puts the quanta of a slot's row after those issued before.
///
/// # Errors
///
/// Where memory is refused.
fn note_row(issued: &mut Vec<Quantum>, slot: u64, row: &Row) -> Result<(), AllocError>
    ensures { OnOk result (issued.new.items ≡ issued.old.items ++ quanta_from slot 0 row.now) }
{
    let Ok(processors) = u32::try_from(row.processors()) else {
        return Err(AllocError);
    };
    for processor in 0..processors {
        if let Some(Pick { task, sub }) = row.get(processor) {
            issued.push(Quantum {
                slot,
                processor,
                task,
                sub,
            })?;
        }
    }
    Ok(())
}

/// Enters a command as the planner; a step once no quantum lies untaken.
fn enter_as<N: Naming, H: Wait + Drop>(
    rt: &impl Wait,
    shared: &Shared<N, Locked<N, H>>,
    planner: &mut DeskPass,
    command: Command,
) -> Result<Done, AllocError>
    requires { planner.old.board ≡ N.board.id }
    ensures { IfOk result (λ done. GoesOn N.board.terms command planner.old done planner.new) }
{
    match command {
        Command::Edit { change, strict } => shared.edit(rt, planner, change, strict),
        Command::Step => step_as(rt, shared, planner),
    }
}

/// Takes the next slot as the planner, once no quantum lies untaken.
fn step_as<N: Naming, H: Wait + Drop>(
    rt: &impl Wait,
    shared: &Shared<N, Locked<N, H>>,
    planner: &mut DeskPass,
) -> Result<Done, AllocError>
    requires { planner.old.board ≡ N.board.id }
    ensures { IfOk result (λ done. GoesOn N.board.terms Step planner.old done planner.new) }
{
    for _ in rt.forever() {
        match shared.step(rt, planner) {
            Ok(done) => return Ok(done),
            Err(StepRefusal::NoMemory) => return Err(AllocError),
            Err(StepRefusal::Pending { .. }) => yield_now(),
        }
    }
    unreachable!()
}
