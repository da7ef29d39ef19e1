ghost use Rattle.std.specs.Prelude.{◌≡◌, ◌++◌, ◌∷◌, [], length, IfOk, IfErr, OnOk, OnErr};
ghost use Rattle.std.specs.Arc.{arc_value};
ghost use mathlib.Core.List.{IsPrefix};
ghost use Rattle.pf_board.specs.Passes.{AreOf, IsFront};
ghost use Rattle.pf_board.specs.Quanta.{AreApartQuanta};
ghost use Rattle.pf_board.specs.Takes.{Takes};
ghost use Rattle.pf_desk.specs.declared.command.Command.TheVariants.{Edit, Step};
ghost use Rattle.pf_desk.specs.Desk.{StandsForHistory};
ghost use Rattle.pf_share.specs.Ended.{EndsDesk, KeepsDesk};
ghost use Rattle.pf_share.specs.Entered.{Enters, RefusesStep, found_empty};
ghost use Rattle.pf_share.specs.Histories.{IsHistory, entries_of, quanta_of};
ghost use Rattle.pf_share.specs.Locked.{origin_of};

use crate::calls::{DeskBoard, DeskPass};
use crate::closed::Closed;
use crate::done::Done;
use crate::locked::Locked;
use crate::naming::Naming;
use crate::opened::Opened;
use crate::step_refusal::StepRefusal;
use crate::unclosed::Unclosed;
use crate::unread::Unread;
use crate::viewer::Viewer;
use pf_board::take::Take;
use pf_desk::snapshot::Snapshot;
use pf_scenario::change::Change;
use std::alloc::AllocError;
use std::marker::{Model, PhantomData};
use std::sync::{Arc, Mutex, Wait};

/// One desk for many callers, in any threads. `N` names it, and `L`, a `Locked`, is what lies under its lock. The calls that
/// wait for nobody are there whatever `L` is, and so hold nothing to wait with. Contracts see its board.
#[derive(Drop)]
pub struct Shared<N: Naming, L: Drop> {
    board: DeskBoard,
    locked: Mutex<L>,
    of: PhantomData<N>,
}

impl<N: Naming, L: Drop> Model for Shared<N, L> {
    ghost use Rattle.std.specs.Prelude.{◌≡◌};
    ghost use Rattle.pf_scenario.specs.System.{System};
    ghost use Rattle.pf_board.specs.Passes.{Boarding};

    ghost Value = { Boarding System };

    ghost view = { λ s. s.board };

    ghost invariant = { λ s. s.board ≡ N.board };
}

impl<N: Naming, L: Drop> Shared<N, L> {
    /// A desk whose lock is free.
    pub(crate) fn new(board: DeskBoard, locked: L) -> Self
        requires { board ≡ N.board }
        ensures { result ≡ board }
    {
        Shared {
            board,
            locked: Mutex::new(locked),
            of: PhantomData,
        }
    }

    /// The number of entries. It waits for nobody. The pass then has seen them all.
    pub fn look(&self, pass: &mut DeskPass) -> u64
        requires { pass.old.board ≡ N.board.id }
        ensures pass { pass.new ≡ record pass.old { seen = pass.new.seen; loads = pass.old.loads ++ (0, result) ∷ [] } }
        ensures found { result ≡ length pass.new.seen }
        ensures grew { IsPrefix pass.old.seen pass.new.seen }
        ensures front { IsFront IsHistory pass.new }
    {
        self.board.look(pass)
    }

    /// Afterwards what `into` has seen begins with what each of the two had seen. It waits for nobody. Nothing that the
    /// one took was taken by the other.
    pub fn meet(&self, from: &mut DeskPass, into: &mut DeskPass)
        requires { (from.old.board ≡ N.board.id) × (into.old.board ≡ N.board.id) }
        ensures from { from.new ≡ from.old }
        ensures into { into.new ≡ record into.old { seen = into.new.seen } }
        ensures seen { IsPrefix from.old.seen into.new.seen × IsPrefix into.old.seen into.new.seen }
        ensures front { IsFront IsHistory into.new }
        ensures apart { AreApartQuanta from.old.taken into.old.taken }
    {
        self.board.meet(from, into);
    }

    /// Takes the quantum of a processor. It waits for nobody. A quantum that was got is the pass's alone, and stands in
    /// the row that a step answered, in the history that the pass has then seen.
    pub fn take(&self, pass: &mut DeskPass, processor: u32) -> Take
        requires { pass.old.board ≡ N.board.id }
        ensures taken { Takes IsHistory quanta_of N.board.processors processor pass.old result pass.new }
        ensures grew { IsPrefix pass.old.seen pass.new.seen }
    {
        self.board.take(pass, processor)
    }

    /// The snapshot that is shown. It waits for nobody. It stands for a history that begins with all that this viewer
    /// read before or was told.
    ///
    /// # Errors
    ///
    /// Where the readers' table gives no entry, or the snapshot takes no further owner.
    pub fn read(&self, viewer: &mut Viewer) -> Result<Arc<Snapshot>, Unread>
        requires { viewer.old.origin ≡ origin_of N.board N.book }
        ensures stands { IfOk result (λ s. StandsForHistory viewer.new.read (arc_value s)) }
        ensures settings { IfOk result (λ s. (arc_value s).state.plan.settings ≡ N.board.terms) }
        ensures grew { IsPrefix viewer.old.read viewer.new.read }
        ensures told { IfOk result (λ s. IsPrefix viewer.old.told viewer.new.read) }
        ensures reads { IfOk result (λ s. viewer.new.reads ≡ viewer.old.reads ++ (arc_value s).version ∷ []) }
        ensures same { (viewer.new.told ≡ viewer.old.told) × (viewer.new.origin ≡ viewer.old.origin) }
    {
        viewer.read()
    }
}

impl<N: Naming, H: Wait + Drop> Shared<N, Locked<N, H>> {
    /// From now on each history that the viewer reads begins with the desk's, and so with what the pass has seen; what
    /// the viewer read before begins that history too. It waits for the lock.
    ///
    /// # Errors
    ///
    /// Where the readers' table gives no entry: pass and viewer are as before.
    pub fn tell(
        &self,
        rt: &impl Wait,
        pass: &mut DeskPass,
        viewer: &mut Viewer,
    ) -> Result<(), AllocError>
        requires { (pass.old.board ≡ N.board.id) × (viewer.old.origin ≡ origin_of N.board N.book) }
        ensures pass { pass.new ≡ pass.old }
        ensures viewer { viewer.new ≡ record viewer.old { told = viewer.new.told } }
        ensures told { OnOk result (IsPrefix (entries_of pass.old.seen) viewer.new.told) }
        ensures read { OnOk result (IsPrefix viewer.old.read viewer.new.told) }
        ensures grew { IsPrefix viewer.old.told viewer.new.told }
        ensures not_told { OnErr result (viewer.new ≡ viewer.old) }
    {
        self.locked.lock(rt).tell(&self.board, pass, viewer)
    }

    /// Makes a change as the pass, and answers as the desk machine does; the answer is an entry of the one history, which
    /// is shown before another call comes in. A strict change is refused where the run so far would then have a denial. A
    /// refused change is an entry too. It waits for the lock, and for viewers that are reading.
    ///
    /// # Errors
    ///
    /// Where memory is refused: no entry, and the pass is as before.
    pub fn edit(
        &self,
        rt: &impl Wait,
        pass: &mut DeskPass,
        change: Change,
        strict: bool,
    ) -> Result<Done, AllocError>
        requires { pass.old.board ≡ N.board.id }
        ensures entered { IfOk result (λ d. Enters N.board.terms (Edit change strict) pass.old d pass.new) }
        ensures refused { OnErr result (pass.new ≡ pass.old) }
        ensures front { IsFront IsHistory pass.new }
    {
        self.locked
            .lock(rt)
            .edit(rt, &self.board, pass, change, strict)
    }

    /// Takes the next slot as the pass, and answers as the desk machine does; the answer is an entry of the one history,
    /// which is shown, and the quanta of its row lie on their processors' words, before another call comes in. A step at
    /// the horizon is refused, and is an entry too. It first looks at each processor's word, from processor 0 on, and the
    /// pass lists what was found: 0 on each where the step is answered. It waits for the lock, and for viewers that are
    /// reading.
    ///
    /// # Errors
    ///
    /// `Pending` where a quantum was found, which ends the look; `NoMemory` where memory is refused: no entry, and the pass
    /// is as before, but for what was found.
    pub fn step(&self, rt: &impl Wait, pass: &mut DeskPass) -> Result<Done, StepRefusal>
        requires { pass.old.board ≡ N.board.id }
        ensures entered { IfOk result (λ d. Enters N.board.terms Step (found_empty N.board.processors pass.old) d pass.new) }
        ensures refused { OnErr result (pass.new ≡ record pass.old { loads = pass.new.loads }) }
        ensures found { IfErr result (λ refusal. RefusesStep N.board.processors pass.old refusal pass.new) }
        ensures front { IsFront IsHistory pass.new }
    {
        self.locked.lock(rt).step(rt, &self.board, pass)
    }

    /// Ends the desk: gives it with its whole history, and the quanta that nobody took, by processor. What each of these
    /// passes has seen begins that history, in which its own entries are those of its number; and where every pass is
    /// handed in, each quantum that a step issued is either left or was taken, by one pass alone. The viewers end too. It
    /// waits for those that are still reading.
    ///
    /// # Errors
    ///
    /// Where memory is refused: all comes back untouched. The desk that comes back is that of the same board, and goes on
    /// with its history, the one that these passes have seen beginnings of.
    pub fn close(
        self,
        rt: &impl Wait,
        passes: Vec<DeskPass>,
        viewers: Vec<Viewer>,
    ) -> Result<Closed, Opened<N, H>>
        requires { AreOf N.board.id passes.items }
        ensures closed { IfOk result (λ c. EndsDesk N.board passes.items c) }
        ensures refused { IfErr result (λ o. (o.shared ≡ self) × (o.passes.items ≡ passes.items) × (o.viewers.items ≡ viewers.items)) }
        ensures goes_on { IfErr result (λ _. KeepsDesk N.board passes.items) }
    {
        let Shared {
            board,
            locked,
            of: _,
        } = self;
        match locked.into_inner().close(rt, board, passes) {
            Ok(closed) => Ok(closed),
            Err(
                Unclosed {
                    board,
                    locked,
                    passes,
                },
            ) => Err(Opened {
                shared: Shared::new(board, locked),
                passes,
                viewers,
            }),
        }
    }
}
