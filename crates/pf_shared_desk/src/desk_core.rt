ghost use Rattle.std.specs.Prelude.{ℕ, ◌≡◌, ◌<◌, true, [], IfOk, IfErr, IfSome, IfNone, OnErr};
ghost use Rattle.pf_board.specs.Passes.{IsFront, IsIn};
ghost use Rattle.pf_desk.specs.declared.command.Command.TheVariants.{Edit, Step};
ghost use Rattle.pf_desk_board.specs.Entered.{Enters, FindsQuantum, found_empty};
ghost use Rattle.pf_desk_board.specs.Histories.{IsHistory, is_step_command, quanta_of_reply};
ghost use Rattle.pf_desk_board.specs.Issuing.{AwaitsReply};
ghost use Rattle.pf_shared_desk.specs.Calling.{Refuses};
ghost use Rattle.pf_shared_desk.specs.Kept.{IsCore, IsKept};
ghost use Rattle.pf_shared_desk.specs.declared.unanswered.Unanswered.TheVariants.{NoMemory};

use crate::shown::Shown;
use crate::unanswered::Unanswered;
use counted_slot::Fits;
use pf_desk::command::Command;
use pf_desk::desk::Desk;
use pf_desk::entry::Entry;
use pf_desk::reply::Reply;
use pf_desk_board::calls::{DeskBoard, DeskKeeper, DeskPass};
use pf_desk_board::done::Done;
use pf_desk_board::issue::issue;
use pf_order::meter::Meter;
use pf_scenario::change::Change;
use pf_shelf::shelf::Shelf;
use std::alloc::AllocError;
use std::sync::Arc;

/// What one caller at a time has of a shared desk: the desk itself, and the keeper of its history on the board.
#[derive(Drop)]
pub struct DeskCore {
    pub(crate) desk: Desk,
    pub(crate) meter: Meter,
    pub(crate) keeper: DeskKeeper,
}

impl Fits for DeskCore {
    ghost use Rattle.pf_shared_desk.specs.Kept.{IsCore};

    type Tag = DeskBoard;

    ghost fits = { IsCore };
}

impl DeskCore {
    /// How many slots were stepped.
    pub(crate) fn now(&self) -> u64 {
        self.desk.now()
    }

    /// Answers the pass's command, shows the history with it, and enters it. For a step each word was found empty since
    /// the last quantum was put there; its quanta are then left to issue.
    ///
    /// # Errors
    ///
    /// Where memory is refused: no entry.
    fn enter(
        &mut self,
        board: &DeskBoard,
        shelf: &Shelf<Shown>,
        pass: &mut DeskPass,
        command: Command,
    ) -> Result<Done, AllocError>
        requires core { IsCore board.now self.old }
        requires shelf { shelf.now ≡ board.now.terms }
        requires pass { pass.old.board ≡ board.now.id }
        requires step { is_step_command command ≡ true → (p : ℕ) → p < board.now.processors → IsIn self.old.keeper.empty p }
        ensures entered { IfOk result (λ d. Enters board.now.terms command pass.old d pass.new) }
        ensures kept { IfOk result (λ d. IsKept board.now self.new × (self.new.keeper.left ≡ quanta_of_reply d.reply)) }
        ensures awaits { IfOk result (λ d. command ≡ Step → AwaitsReply board.now.processors self.new.keeper d.reply) }
        ensures same_core { OnErr result (IsCore board.now self.new) }
        ensures same_pass { OnErr result (pass.new ≡ pass.old) }
        ensures front { IsFront IsHistory pass.new }
    {
        let caller = pass.me();
        let prepared = self.desk.prepare(&mut self.meter, caller, command)?;
        let snapshot = Arc::try_clone(prepared.snapshot())?;
        let Ok(()) = shelf.show(Shown { snapshot }) else {
            return Err(AllocError);
        };
        // The history with the entry is shown: from here on nothing fails.
        let turn = board.turn(&mut self.keeper);
        let reply = self.desk.commit(prepared);
        // That the entries can be counted is known once they are.
        let _ = self.desk.history().len();
        let entry = Entry {
            caller,
            command,
            reply,
        };
        let front = board.note(&mut self.keeper, pass, turn, &entry);
        Ok(Done {
            reply: entry.reply,
            front,
        })
    }

    /// Makes a change as the pass.
    ///
    /// # Errors
    ///
    /// `NoMemory`: no entry.
    pub(crate) fn edit(
        &mut self,
        board: &DeskBoard,
        shelf: &Shelf<Shown>,
        pass: &mut DeskPass,
        change: Change,
        strict: bool,
    ) -> Result<Done, Unanswered>
        requires core { IsCore board.now self.old }
        requires shelf { shelf.now ≡ board.now.terms }
        requires pass { pass.old.board ≡ board.now.id }
        ensures core { IsCore board.now self.new }
        ensures entered { IfOk result (λ d. Enters board.now.terms (Edit change strict) pass.old d pass.new) }
        ensures same_pass { OnErr result (pass.new ≡ pass.old) }
        ensures memory { IfErr result (λ u. u ≡ NoMemory) }
        ensures front { IsFront IsHistory pass.new }
    {
        match self.enter(board, shelf, pass, Command::Edit { change, strict }) {
            Ok(done) => Ok(done),
            Err(_) => Err(Unanswered::NoMemory),
        }
    }

    /// Looks at each processor's word for the pass, from processor 0 on: the first on which a quantum lies.
    fn find_untaken(&mut self, board: &DeskBoard, pass: &mut DeskPass) -> Option<u32>
        requires core { IsCore board.now self.old }
        requires pass { pass.old.board ≡ board.now.id }
        ensures core { IsCore board.now self.new }
        ensures some { IfSome result (λ p. (p < board.now.processors) × FindsQuantum p pass.old pass.new) }
        ensures none { IfNone result (pass.new ≡ found_empty board.now.processors pass.old) }
        ensures empty { IfNone result ((p : ℕ) → p < board.now.processors → IsIn self.new.keeper.empty p) }
        ensures front { IsFront IsHistory pass.new }
    {
        let found = board.check(&mut self.keeper);
        board.report(&mut self.keeper, pass);
        found
    }

    /// Looks at each processor's word for the pass, then takes the next slot as the pass, and issues the quanta of the row.
    ///
    /// # Errors
    ///
    /// `Pending` where a quantum lies untaken, and `NoMemory`: no entry.
    pub(crate) fn step(
        &mut self,
        board: &DeskBoard,
        shelf: &Shelf<Shown>,
        pass: &mut DeskPass,
    ) -> Result<Done, Unanswered>
        requires core { IsCore board.now self.old }
        requires shelf { shelf.now ≡ board.now.terms }
        requires pass { pass.old.board ≡ board.now.id }
        ensures core { IsCore board.now self.new }
        ensures entered { IfOk result (λ d. Enters board.now.terms Step (found_empty board.now.processors pass.old) d pass.new) }
        ensures refused { IfErr result (λ refusal. Refuses board.now.processors pass.old refusal pass.new) }
        ensures front { IsFront IsHistory pass.new }
    {
        if let Some(processor) = self.find_untaken(board, pass) {
            return Err(Unanswered::Pending { processor });
        }
        let Ok(done) = self.enter(board, shelf, pass, Command::Step) else {
            return Err(Unanswered::NoMemory);
        };
        if let Reply::Stepped { slot, row } = &done.reply {
            let processors = self.desk.scenario().settings().processors();
            issue(board, &mut self.keeper, processors, *slot, row);
        }
        Ok(done)
    }
}
