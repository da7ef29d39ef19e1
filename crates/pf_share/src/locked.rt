ghost use Rattle.std.specs.Prelude.{◌≡◌, IfOk, IfErr, OnOk, OnErr};
ghost use mathlib.Core.List.{IsPrefix};
ghost use Rattle.pf_board.specs.Passes.{AreOf, IsFront};
ghost use Rattle.pf_desk.specs.declared.command.Command.TheVariants.{Edit, Step};
ghost use Rattle.pf_desk.specs.Desk.{AnswersCaller, IsAsBefore};
ghost use Rattle.pf_share.specs.Histories.{IsHistory, entries_of};
ghost use Rattle.pf_share.specs.Ended.{EndsDesk, KeepsDesk};
ghost use Rattle.pf_share.specs.Entered.{Enters, RefusesStep, found_empty};
ghost use Rattle.pf_share.specs.Locked.{IsLocked, origin_of};

use crate::calls::{DeskBoard, DeskKeeper, DeskPass};
use crate::closed::Closed;
use crate::done::Done;
use crate::naming::Naming;
use crate::press::Press;
use crate::publisher::Publisher;
use crate::shown_desk::ShownDesk;
use crate::stamp::Stamp;
use crate::step_refusal::StepRefusal;
use crate::unclosed::Unclosed;
use crate::viewer::Viewer;
use pf_desk::command::Command;
use pf_desk::desk::Desk;
use pf_scenario::change::Change;
use std::alloc::AllocError;
use std::marker::Model;
use std::sync::Wait;

/// What lies under the lock: a desk whose history is shown, with nothing left to issue. Contracts see the desk.
#[derive(Drop)]
pub struct Locked<N: Naming, H: Wait + Drop> {
    shown: ShownDesk<N, H>,
}

impl<N: Naming, H: Wait + Drop> Model for Locked<N, H> {
    ghost use Rattle.std.specs.Prelude.{◌≡◌, []};
    ghost use Rattle.pf_desk.specs.Desk.{Shown};

    ghost Value = { Shown };

    ghost view = { λ s. s.shown.desk };

    ghost invariant = { λ s. s.shown.keeper.left ≡ [] };
}

impl<N: Naming, H: Wait + Drop> Locked<N, H> {
    /// A desk, with the keeper that has seen its history, and what shows that.
    pub(crate) fn new(
        desk: Desk,
        keeper: DeskKeeper,
        press: Press,
        stamp: Stamp,
        publisher: Publisher<H>,
    ) -> Self
        requires { IsLocked N.board N.book desk keeper press stamp publisher }
        ensures { result ≡ desk }
    {
        Locked {
            shown: ShownDesk::new(desk, keeper, press, stamp, publisher),
        }
    }

    /// From now on the viewer reads no less than the desk's history, and so than what the pass has seen.
    ///
    /// # Errors
    ///
    /// Where the readers' table gives no entry: the viewer is as before.
    pub(crate) fn tell(
        &mut self,
        board: &DeskBoard,
        pass: &mut DeskPass,
        viewer: &mut Viewer,
    ) -> Result<(), AllocError>
        requires board { (board.now ≡ N.board) × (pass.old.board ≡ N.board.id) }
        requires viewer { viewer.old.origin ≡ origin_of N.board N.book }
        ensures desk { self.new ≡ self.old }
        ensures pass { pass.new ≡ pass.old }
        ensures viewer { viewer.new ≡ record viewer.old { told = viewer.new.told } }
        ensures told { OnOk result (viewer.new.told ≡ self.old.history) }
        ensures begins { OnOk result (IsPrefix (entries_of pass.old.seen) viewer.new.told) }
        ensures grew { IsPrefix viewer.old.told viewer.new.told }
        ensures read { OnOk result (IsPrefix viewer.old.read viewer.new.told) }
        ensures not_told { OnErr result (viewer.new ≡ viewer.old) }
    {
        self.shown.tell(board, pass, viewer)
    }

    /// Makes a change as the pass, and shows and enters the answer.
    ///
    /// # Errors
    ///
    /// Where memory is refused: the desk, but for its room, and the pass are as before.
    pub(crate) fn edit(
        &mut self,
        rt: &impl Wait,
        board: &DeskBoard,
        pass: &mut DeskPass,
        change: Change,
        strict: bool,
    ) -> Result<Done, AllocError>
        requires board { (board.now ≡ N.board) × (pass.old.board ≡ N.board.id) }
        ensures desk { IfOk result (λ d. AnswersCaller pass.old.me (Edit change strict) self.old d.reply self.new) }
        ensures entered { IfOk result (λ d. Enters N.board.terms (Edit change strict) pass.old d pass.new) }
        ensures same_desk { OnErr result (IsAsBefore self.old self.new) }
        ensures same_pass { OnErr result (pass.new ≡ pass.old) }
        ensures front { IsFront IsHistory pass.new }
    {
        self.shown
            .enter(rt, board, pass, Command::Edit { change, strict })
    }

    /// Looks at each processor's word for the pass, then takes the next slot as the pass, shows and enters the answer,
    /// and issues the quanta of the row.
    ///
    /// # Errors
    ///
    /// `Pending` where a quantum lies untaken, `NoMemory` where memory is refused: the desk, but for its room, and the
    /// pass, but for its loads, are as before.
    pub(crate) fn step(
        &mut self,
        rt: &impl Wait,
        board: &DeskBoard,
        pass: &mut DeskPass,
    ) -> Result<Done, StepRefusal>
        requires board { (board.now ≡ N.board) × (pass.old.board ≡ N.board.id) }
        ensures desk { IfOk result (λ d. AnswersCaller pass.old.me Step self.old d.reply self.new) }
        ensures entered { IfOk result (λ d. Enters N.board.terms Step (found_empty N.board.processors pass.old) d pass.new) }
        ensures same_desk { OnErr result (IsAsBefore self.old self.new) }
        ensures refused { OnErr result (pass.new ≡ record pass.old { loads = pass.new.loads }) }
        ensures found { IfErr result (λ refusal. RefusesStep N.board.processors pass.old refusal pass.new) }
        ensures front { IsFront IsHistory pass.new }
    {
        self.shown.step(rt, board, pass)
    }

    /// The desk, and the quanta that nobody took.
    ///
    /// # Errors
    ///
    /// Where memory is refused: all comes back untouched.
    pub(crate) fn close(
        self,
        rt: &impl Wait,
        board: DeskBoard,
        passes: Vec<DeskPass>,
    ) -> Result<Closed, Unclosed<N, H>>
        requires board { (board ≡ N.board) × AreOf N.board.id passes.items }
        ensures desk { IfOk result (λ c. c.desk ≡ self) }
        ensures closed { IfOk result (λ c. EndsDesk N.board passes.items c) }
        ensures refused { IfErr result (λ u. (u.board ≡ board) × (u.locked ≡ self) × (u.passes.items ≡ passes.items)) }
        ensures goes_on { IfErr result (λ _. KeepsDesk N.board passes.items) }
    {
        let Locked { shown } = self;
        match shown.close(rt, board, passes) {
            Ok(closed) => Ok(closed),
            Err((board, shown, passes)) => {
                let locked = Locked { shown };
                Err(Unclosed {
                    board,
                    locked,
                    passes,
                })
            }
        }
    }
}
