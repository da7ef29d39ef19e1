ghost use Rattle.std.specs.Prelude.{◌≡◌, ◌⊎◌, ◌++◌, ◌∷◌, [], length, IfOk, IfErr, OnErr};
ghost use Rattle.std.specs.Arc.{arc_value};
ghost use mathlib.Core.List.{IsPrefix};
ghost use Rattle.pf_board.specs.Passes.{IsFront};
ghost use Rattle.pf_board.specs.Takes.{Takes};
ghost use Rattle.pf_desk.specs.declared.command.Command.TheVariants.{Edit, Step};
ghost use Rattle.pf_desk_board.specs.Entered.{Enters, found_empty};
ghost use Rattle.pf_desk_board.specs.Histories.{IsHistory, quanta_of};
ghost use Rattle.pf_shared_desk.specs.Calling.{Refuses, TakesIn};
ghost use Rattle.pf_shared_desk.specs.declared.unanswered.Unanswered.TheVariants.{Busy, NoMemory};

use crate::common::Common;
use crate::slot_take::SlotTake;
use crate::unanswered::Unanswered;
use pf_board::take::Take;
use pf_desk_board::calls::DeskPass;
use pf_desk_board::done::Done;
use pf_scenario::change::Change;
use std::marker::Model;
use std::sync::Arc;

/// A caller of a shared desk, a planner or a dispatcher: one thread's at a time. None of its calls waits for another
/// caller or for a reader. Contracts see the board of its desk, and its pass.
#[derive(Drop)]
pub struct Caller {
    common: Arc<Common>,
    pass: DeskPass,
}

impl Model for Caller {
    ghost use Rattle.std.specs.Prelude.{◌≡◌};
    ghost use Rattle.std.specs.Arc.{arc_value};
    ghost use Rattle.pf_shared_desk.specs.Calling.{Calling};

    ghost Value = { Calling };

    ghost view = { λ c. record { board = arc_value c.common; pass = c.pass } };

    ghost invariant = { λ c. c.pass.board ≡ (arc_value c.common).id };
}

impl Caller {
    /// A caller with this pass.
    pub(crate) fn new(common: Arc<Common>, pass: DeskPass) -> Self
        requires { pass.board ≡ (arc_value common).id }
        ensures { result ≡ record { board = arc_value common; pass = pass } }
    {
        Caller { common, pass }
    }

    /// How many slots were stepped: the quanta of each of them lie on the processors' words, or did.
    pub fn stepped(&self) -> u64 {
        self.common.stepped()
    }

    /// Takes the quantum of a processor. A quantum that was got is the caller's alone, and stands in the row that a step
    /// answered, in the history that the caller has then seen.
    pub fn take(&mut self, processor: u32) -> Take
        ensures taken { Takes IsHistory quanta_of self.old.board.processors processor self.old.pass result self.new.pass }
        ensures grew { IsPrefix self.old.pass.seen self.new.pass.seen }
        ensures same { self.new.board ≡ self.old.board }
    {
        self.common.take(&mut self.pass, processor)
    }

    /// Takes the quantum of a processor, where the slot is the last one stepped; else nothing is done. So a dispatcher that
    /// is early does not take the quantum of a slot before. Where others take from this processor too, it may get that of
    /// a slot that was stepped meanwhile, as the quantum tells.
    pub fn take_in(&mut self, processor: u32, slot: u64) -> SlotTake
        ensures taken { TakesIn self.old.board.processors processor self.old.pass result self.new.pass }
        ensures grew { IsPrefix self.old.pass.seen self.new.pass.seen }
        ensures same { self.new.board ≡ self.old.board }
    {
        self.common.take_in(&mut self.pass, processor, slot)
    }

    /// The number of entries. The caller then has seen them all.
    pub fn look(&mut self) -> u64
        ensures pass { self.new.pass ≡ record self.old.pass { seen = self.new.pass.seen; loads = self.old.pass.loads ++ (0, result) ∷ [] } }
        ensures found { result ≡ length self.new.pass.seen }
        ensures grew { IsPrefix self.old.pass.seen self.new.pass.seen }
        ensures front { IsFront IsHistory self.new.pass }
        ensures same { self.new.board ≡ self.old.board }
    {
        self.common.look(&mut self.pass)
    }

    /// Makes a change, and answers as the desk machine does; the answer is an entry of the one history, which is shown
    /// before another caller is at the desk. A strict change is refused where the run so far would then have a denial. A
    /// refused change is an entry too.
    ///
    /// # Errors
    ///
    /// `Busy` and `NoMemory`: no entry, and the caller is as before.
    pub fn edit(&mut self, change: Change, strict: bool) -> Result<Done, Unanswered>
        ensures entered { IfOk result (λ d. Enters self.old.board.terms (Edit change strict) self.old.pass d self.new.pass) }
        ensures refused { OnErr result (self.new.pass ≡ self.old.pass) }
        ensures why { IfErr result (λ u. (u ≡ Busy) ⊎ (u ≡ NoMemory)) }
        ensures same { self.new.board ≡ self.old.board }
    {
        self.common.edit(&mut self.pass, change, strict)
    }

    /// Takes the next slot, and answers as the desk machine does; the answer is an entry of the one history, which is
    /// shown, and the quanta of its row lie on their processors' words, before another caller is at the desk. A step at
    /// the horizon is refused, and is an entry too. It first looks at each processor's word, from processor 0 on, and the
    /// pass lists what was found: 0 on each where the step is answered.
    ///
    /// # Errors
    ///
    /// `Busy`: nothing was done. `Pending` where a quantum was found, which ends the look; `NoMemory`: no entry, and the
    /// caller is as before, but for what was found.
    pub fn step(&mut self) -> Result<Done, Unanswered>
        ensures entered { IfOk result (λ d. Enters self.old.board.terms Step (found_empty self.old.board.processors self.old.pass) d self.new.pass) }
        ensures refused { IfErr result (λ refusal. Refuses self.old.board.processors self.old.pass refusal self.new.pass) }
        ensures same { self.new.board ≡ self.old.board }
    {
        self.common.step(&mut self.pass)
    }
}
