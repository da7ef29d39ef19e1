ghost use Rattle.std.specs.Prelude.{ℕ, ◌≡◌, ◌<◌, ◌≤◌, ◌++◌, ◌∷◌, [], true, IfOk, IfErr, IfSome, IfNone, OnOk, OnErr};
ghost use mathlib.Core.List.{IsPrefix};
ghost use Rattle.pf_board.specs.Passes.{AreOf, IsFront, IsIn};
ghost use Rattle.pf_desk.specs.Desk.{AnswersCaller, IsAsBefore, IsReadyFor, StandsForHistory, entry_of};
ghost use Rattle.pf_desk.specs.Machine.{reply_to};
ghost use Rattle.pf_share.specs.Histories.{IsHistory, entries_of, is_step_command, quanta_of_reply};
ghost use Rattle.pf_desk.specs.declared.command.Command.TheVariants.{Step};
ghost use Rattle.pf_share.specs.Ended.{AreFronts, EndsDesk, KeepsDesk};
ghost use Rattle.pf_share.specs.Entered.{Enters, FindsQuantum, RefusesStep, found_empty};
ghost use Rattle.pf_share.specs.Issuing.{AwaitsIssue, AwaitsReply};
ghost use Rattle.pf_share.specs.Locked.{IsShownDesk, origin_of};

use crate::calls::{DeskBoard, DeskKeeper, DeskPass};
use crate::closed::Closed;
use crate::done::Done;
use crate::naming::Naming;
use crate::press::Press;
use crate::publisher::Publisher;
use crate::shown::Shown;
use crate::stamp::Stamp;
use crate::step_refusal::StepRefusal;
use crate::tells::Tells;
use crate::viewer::Viewer;
use pf_board::handed::Handed;
use pf_board::quantum::Quantum;
use pf_desk::command::Command;
use pf_desk::desk::Desk;
use pf_desk::entry::Entry;
use pf_desk::prepared::Prepared;
use pf_desk::reply::Reply;
use pf_order::meter::Meter;
use pf_order::pick::Pick;
use pf_place::row::Row;
use std::alloc::AllocError;
use std::marker::{Model, PhantomData};
use std::sync::{Arc, Wait};

/// A command made ready tells the history with its entry.
struct OfPrepared;

impl Tells<Prepared> for OfPrepared {
    ghost use Rattle.std.specs.Prelude.{◌++◌, ◌∷◌, []};

    ghost story = { λ p. record { settings = p.settings; entries = p.history ++ p.entry ∷ [] } };
}

/// A desk, its keeper, and what shows its history. Contracts see the desk and the keeper.
#[derive(Drop)]
pub struct ShownDesk<N: Naming, H: Wait + Drop> {
    desk: Desk,
    meter: Meter,
    keeper: DeskKeeper,
    press: Press,
    stamp: Stamp,
    publisher: Publisher<H>,
    of: PhantomData<N>,
}

impl<N: Naming, H: Wait + Drop> Model for ShownDesk<N, H> {
    ghost use Rattle.pf_share.specs.Locked.{Showing, IsShownDesk};

    ghost Value = { Showing };

    ghost view = { λ s. record { desk = s.desk; keeper = s.keeper } };

    ghost invariant = { λ s. IsShownDesk N.board N.book s.desk s.keeper s.press s.stamp s.publisher };
}

impl<N: Naming, H: Wait + Drop> ShownDesk<N, H> {
    /// A desk, with the keeper that has seen its history, and what shows that.
    pub(crate) fn new(
        desk: Desk,
        keeper: DeskKeeper,
        press: Press,
        stamp: Stamp,
        publisher: Publisher<H>,
    ) -> Self
        requires { IsShownDesk N.board N.book desk keeper press stamp publisher }
        ensures { result ≡ record { desk = desk; keeper = keeper } }
    {
        ShownDesk {
            desk,
            meter: Meter::new(),
            keeper,
            press,
            stamp,
            publisher,
            of: PhantomData,
        }
    }

    /// From now on the viewer reads no less than the desk's history, and so than what the pass has seen.
    ///
    /// # Errors
    ///
    /// Where the readers' table gives no entry: the viewer is as before.
    pub(crate) fn tell(
        &mut self,
        board: &DeskBoard,
        pass: &mut DeskPass,
        viewer: &mut Viewer,
    ) -> Result<(), AllocError>
        requires board { (board.now ≡ N.board) × (pass.old.board ≡ N.board.id) }
        requires viewer { viewer.old.origin ≡ origin_of N.board N.book }
        ensures same { self.new ≡ self.old }
        ensures pass { pass.new ≡ pass.old }
        ensures viewer { viewer.new ≡ record viewer.old { told = viewer.new.told } }
        ensures told { OnOk result (viewer.new.told ≡ self.old.desk.history) }
        ensures begins { OnOk result (IsPrefix (entries_of pass.old.seen) viewer.new.told) }
        ensures grew { IsPrefix viewer.old.told viewer.new.told }
        ensures read { OnOk result (IsPrefix viewer.old.read viewer.new.told) }
        ensures not_told { OnErr result (viewer.new ≡ viewer.old) }
    {
        board.tie(&mut self.keeper, pass);
        if !viewer.learn(&self.stamp) {
            return Err(AllocError);
        }
        Ok(())
    }

    /// Answers the pass's command, shows the history with it, and enters it. For a step each word was found empty since
    /// the last quantum was put there; its quanta are then left to issue.
    ///
    /// # Errors
    ///
    /// Where memory is refused: desk, keeper and pass are as before, but for the desk's room.
    pub(crate) fn enter(
        &mut self,
        rt: &impl Wait,
        board: &DeskBoard,
        pass: &mut DeskPass,
        command: Command,
    ) -> Result<Done, AllocError>
        requires board { (board.now ≡ N.board) × (pass.old.board ≡ N.board.id) }
        requires none_left { self.old.keeper.left ≡ [] }
        requires step { is_step_command command ≡ true → (p : ℕ) → p < N.board.processors → IsIn self.old.keeper.empty p }
        ensures desk { IfOk result (λ d. AnswersCaller pass.old.me command self.old.desk d.reply self.new.desk) }
        ensures entered { IfOk result (λ d. Enters N.board.terms command pass.old d pass.new) }
        ensures keeper { IfOk result (λ d. self.new.keeper ≡ record self.old.keeper { seen = pass.new.seen; left = quanta_of_reply d.reply }) }
        ensures awaits { IfOk result (λ d. command ≡ Step → AwaitsReply N.board.processors self.new.keeper d.reply) }
        ensures same_desk { OnErr result (IsAsBefore self.old.desk self.new.desk) }
        ensures same_keeper { OnErr result (self.new.keeper ≡ self.old.keeper) }
        ensures same_pass { OnErr result (pass.new ≡ pass.old) }
        ensures front { IsFront IsHistory pass.new }
    {
        let caller = pass.me();
        let (prepared, shown) = self.make_ready(caller, command)?;
        let stamp = shown.stamp().again();
        let Ok(()) = self.publisher.publish(rt, shown) else {
            return Err(AllocError);
        };
        // The history with the entry is shown: from here on nothing fails.
        self.stamp = stamp;
        let turn = board.turn(&mut self.keeper);
        let reply = self.desk.commit(prepared);
        // That the entries can be counted is known once they are.
        let _ = self.desk.history().len();
        let entry = Entry {
            caller,
            command,
            reply,
        };
        let front = board.note(&mut self.keeper, pass, turn, &entry);
        Ok(Done {
            reply: entry.reply,
            front,
        })
    }

    /// Looks at each processor's word for the pass, from processor 0 on: the first on which a quantum lies.
    fn find_untaken(&mut self, board: &DeskBoard, pass: &mut DeskPass) -> Option<u32>
        requires board { (board.now ≡ N.board) × (pass.old.board ≡ N.board.id) }
        ensures desk { self.new.desk ≡ self.old.desk }
        ensures left { self.new.keeper.left ≡ self.old.keeper.left }
        ensures some { IfSome result (λ p. (p < N.board.processors) × FindsQuantum p pass.old pass.new) }
        ensures none { IfNone result (pass.new ≡ found_empty N.board.processors pass.old) }
        ensures empty { IfNone result ((p : ℕ) → p < N.board.processors → IsIn self.new.keeper.empty p) }
        ensures front { IsFront IsHistory pass.new }
    {
        let found = board.check(&mut self.keeper);
        board.report(&mut self.keeper, pass);
        found
    }

    /// Looks at each processor's word for the pass, which lists what was found; then takes the next slot as the pass,
    /// answers as the desk machine does, and issues the quanta of the row.
    ///
    /// # Errors
    ///
    /// `Pending` where a quantum lies untaken, `NoMemory` where memory is refused: the desk, but for its room, and the
    /// pass, but for its loads, are as before.
    pub(crate) fn step(
        &mut self,
        rt: &impl Wait,
        board: &DeskBoard,
        pass: &mut DeskPass,
    ) -> Result<Done, StepRefusal>
        requires board { (board.now ≡ N.board) × (pass.old.board ≡ N.board.id) }
        requires none_left { self.old.keeper.left ≡ [] }
        ensures desk { IfOk result (λ d. AnswersCaller pass.old.me Step self.old.desk d.reply self.new.desk) }
        ensures entered { IfOk result (λ d. Enters N.board.terms Step (found_empty N.board.processors pass.old) d pass.new) }
        ensures none_left { self.new.keeper.left ≡ [] }
        ensures same_desk { OnErr result (IsAsBefore self.old.desk self.new.desk) }
        ensures refused { OnErr result (pass.new ≡ record pass.old { loads = pass.new.loads }) }
        ensures found { IfErr result (λ refusal. RefusesStep N.board.processors pass.old refusal pass.new) }
        ensures front { IsFront IsHistory pass.new }
    {
        if let Some(processor) = self.find_untaken(board, pass) {
            return Err(StepRefusal::Pending { processor });
        }
        let done = self.enter(rt, board, pass, Command::Step)?;
        if let Reply::Stepped { slot, row } = &done.reply {
            let processors = self.desk.scenario().settings().processors();
            issue(board, &mut self.keeper, processors, *slot, row);
        }
        Ok(done)
    }

    /// The desk, and the quanta that nobody took.
    ///
    /// # Errors
    ///
    /// Where memory is refused: all comes back untouched.
    pub(crate) fn close(
        self,
        rt: &impl Wait,
        board: DeskBoard,
        passes: Vec<DeskPass>,
    ) -> Result<Closed, (DeskBoard, Self, Vec<DeskPass>)>
        requires board { (board ≡ N.board) × AreOf N.board.id passes.items }
        requires none_left { self.keeper.left ≡ [] }
        ensures desk { IfOk result (λ c. c.desk ≡ self.desk) }
        ensures closed { IfOk result (λ c. EndsDesk N.board passes.items c) }
        ensures refused { IfErr result (λ r. (r.0 ≡ board) × (r.1 ≡ self) × (r.2.items ≡ passes.items)) }
        ensures goes_on { IfErr result (λ _. KeepsDesk N.board passes.items) }
    {
        let ShownDesk {
            desk,
            meter,
            keeper,
            press,
            stamp,
            publisher,
            of,
        } = self;
        match board.close(keeper, passes) {
            Ok(left) => {
                publisher.end(rt);
                Ok(Closed { desk, left })
            }
            Err(
                Handed {
                    board,
                    mut keeper,
                    mut passes,
                },
            ) => {
                tie_all(&board, &mut keeper, &mut passes);
                let shown = ShownDesk {
                    desk,
                    meter,
                    keeper,
                    press,
                    stamp,
                    publisher,
                    of,
                };
                Err((board, shown, passes))
            }
        }
    }

    /// The command made ready, and the history with its entry, to be shown.
    ///
    /// # Errors
    ///
    /// Where memory is refused.
    fn make_ready(&mut self, caller: u32, command: Command) -> Result<(Prepared, Shown), AllocError>
        ensures desk { IsAsBefore self.old.desk self.new.desk }
        ensures keeper { self.new.keeper ≡ self.old.keeper }
        ensures room { OnOk result (1 ≤ self.new.desk.spare) }
        ensures ready { IfOk result (λ r. IsReadyFor self.new.desk r.0) }
        ensures entry { IfOk result (λ r. r.0.entry ≡ entry_of caller command (reply_to self.old.desk.state command)) }
        ensures shown { IfOk result
            (λ r. r.1 ≡ record { origin = origin_of N.board N.book; history = self.old.desk.history ++ r.0.entry ∷ [] }) }
    {
        let prepared = self.desk.prepare(&mut self.meter, caller, command)?;
        match number(&mut self.press, &prepared) {
            Ok(shown) => Ok((prepared, shown)),
            Err(error) => Err(error),
        }
    }
}

/// The snapshot of what was made ready, with a number for its history.
///
/// # Errors
///
/// Where the numbers are spent, or the snapshot takes no further owner.
fn number(press: &mut Press, prepared: &Prepared) -> Result<Shown, AllocError>
    requires stands { StandsForHistory (prepared.now.history ++ prepared.now.entry ∷ []) prepared.now.seen }
    requires settings { prepared.now.seen.state.plan.settings ≡ prepared.now.settings }
    ensures press { press.new ≡ press.old }
    ensures shown { IfOk result
        (λ s. s ≡ record { origin = record { book = press.old; settings = prepared.now.settings }; history = prepared.now.history ++ prepared.now.entry ∷ [] }) }
{
    let stamp = press
        .stamp::<Prepared, OfPrepared>(prepared)
        .ok_or(AllocError)?;
    let snapshot = Arc::try_clone(prepared.snapshot())?;
    Ok(Shown::new(snapshot, stamp))
}

/// What each pass has seen begins what the keeper has. All are as before.
fn tie_all(board: &DeskBoard, keeper: &mut DeskKeeper, passes: &mut [DeskPass])
    requires board { (keeper.old.board ≡ board.now.id) × AreOf board.now.id passes.old }
    requires here { keeper.old.has_turn ≡ true }
    ensures keeper { keeper.new ≡ keeper.old }
    ensures passes { passes.new ≡ passes.old }
    ensures tied { AreFronts keeper.old.seen passes.old }
{
    for pass in passes.iter_mut() {
        board.tie(keeper, pass);
    }
}

/// Issues the quanta of a slot's row, each to its processor.
fn issue(board: &DeskBoard, keeper: &mut DeskKeeper, processors: u32, slot: u64, row: &Row)
    requires board { (keeper.old.board ≡ board.now.id) × (keeper.old.has_turn ≡ true) }
    requires processors { processors ≡ board.now.processors }
    requires awaits { AwaitsIssue processors keeper.old slot row.now }
    ensures { keeper.new ≡ record keeper.old { left = []; empty = keeper.new.empty } }
{
    for processor in 0..processors {
        if let Some(Pick { task, sub }) = row.get(processor) {
            let quantum = Quantum {
                slot,
                processor,
                task,
                sub,
            };
            board.issue(keeper, quantum);
        }
    }
}
