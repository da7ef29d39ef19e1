ghost use Rattle.std.specs.Prelude.{◌≡◌, ◌⊎◌, ◌++◌, ◌∷◌, ◌≤◌, [], length, IfOk, IfErr, IfSome, OnErr};
ghost use Rattle.std.specs.Arc.{arc_value};
ghost use mathlib.Core.List.{IsPrefix};
ghost use Rattle.pf_board.specs.Passes.{IsFront, new_passes};
ghost use Rattle.pf_board.specs.Takes.{Takes};
ghost use Rattle.pf_desk.specs.declared.command.Command.TheVariants.{Edit, Step};
ghost use Rattle.pf_desk.specs.Desk.{IsDesk};
ghost use Rattle.pf_desk.specs.Machine.{opening_state};
ghost use Rattle.pf_desk_board.specs.Entered.{Enters, found_empty};
ghost use Rattle.pf_desk_board.specs.Histories.{IsHistory, quanta_of};
ghost use Rattle.pf_shared_desk.specs.Calling.{Refuses, TakesIn};
ghost use Rattle.pf_shared_desk.specs.Kept.{IsCore};
ghost use Rattle.pf_shared_desk.specs.Reading.{IsShown};
ghost use Rattle.pf_shared_desk.specs.declared.unanswered.Unanswered.TheVariants.{Busy, NoMemory};

use crate::desk_core::DeskCore;
use crate::shown::Shown;
use crate::slot_take::SlotTake;
use crate::unanswered::Unanswered;
use pf_board::take::Take;
use pf_desk::desk::Desk;
use pf_desk::snapshot::Snapshot;
use pf_desk_board::calls::{DeskBoard, DeskPass};
use pf_desk_board::done::Done;
use pf_order::meter::Meter;
use pf_scenario::change::Change;
use pf_scenario::settings::Settings;
use pf_shelf::room::Room;
use pf_shelf::shelf::Shelf;
use std::alloc::{AllocError, Global};
use std::marker::Model;
use std::sync::Arc;
use std::sync::atomic::{AtomicU64, Ordering};

/// What the callers and readers of a shared desk have in common. Contracts see its board.
#[derive(Drop)]
pub struct Common {
    board: DeskBoard,
    shelf: Shelf<Shown>,
    room: Room<DeskCore>,
    /// How many slots have all their quanta on the processors' words, or had.
    stepped: AtomicU64,
}

impl Model for Common {
    ghost use Rattle.std.specs.Prelude.{◌≡◌};
    ghost use Rattle.pf_scenario.specs.System.{System};
    ghost use Rattle.pf_board.specs.Passes.{Boarding};

    ghost Value = { Boarding System };

    ghost view = { λ c. c.board };

    ghost invariant = { λ c. (c.room ≡ c.board) × (c.shelf ≡ c.board.terms) };
}

impl Common {
    /// A desk with these settings that has no history yet, and so many passes. Its snapshot is shown.
    ///
    /// # Errors
    ///
    /// Where memory is refused.
    pub(crate) fn over(
        alloc: Global,
        settings: Settings,
        desk: Desk,
        callers: u32,
        readers: usize,
    ) -> Result<(Common, Vec<DeskPass>), AllocError>
        requires desk { IsDesk desk × (desk.state ≡ opening_state settings) × (desk.history ≡ []) }
        requires readers { readers ≤ 64 }
        ensures board { IfOk result (λ r. (r.0.terms ≡ settings) × (r.0.processors ≡ settings.processors)) }
        ensures passes { IfOk result (λ r. r.1.items ≡ new_passes r.0.id settings callers) }
    {
        let snapshot = Arc::new(alloc, desk.snapshot()?)?;
        let shelf = show_first(alloc, settings, readers, snapshot)?;
        let processors = settings.processors();
        let (board, keeper, passes) = DeskBoard::new(alloc, &settings, processors, callers)?;
        let core = DeskCore {
            desk,
            meter: Meter::new(),
            keeper,
        };
        let core = Box::new(alloc, core)?;
        let room = Room::new(core, &board);
        let common = Common {
            board,
            shelf,
            room,
            stepped: AtomicU64::new(0),
        };
        Ok((common, passes))
    }

    /// What is shown. None where it was changed under each of many tries, or there can be no more of it.
    pub(crate) fn shown(&self) -> Option<Arc<Snapshot>>
        ensures { IfSome result (λ s. IsShown self.now.terms (arc_value s)) }
    {
        let Shown { snapshot } = self.shelf.look()?;
        Some(snapshot)
    }

    /// How many slots were stepped: the quanta of each of them lie on the processors' words, or did.
    pub(crate) fn stepped(&self) -> u64 {
        self.stepped.load(Ordering::SeqCst)
    }

    /// Takes the quantum of a processor.
    pub(crate) fn take(&self, pass: &mut DeskPass, processor: u32) -> Take
        requires { pass.old.board ≡ self.now.id }
        ensures taken { Takes IsHistory quanta_of self.now.processors processor pass.old result pass.new }
        ensures grew { IsPrefix pass.old.seen pass.new.seen }
    {
        self.board.take(pass, processor)
    }

    /// Takes the quantum of a processor, where the slot is the last one stepped.
    pub(crate) fn take_in(&self, pass: &mut DeskPass, processor: u32, slot: u64) -> SlotTake
        requires { pass.old.board ≡ self.now.id }
        ensures taken { TakesIn self.now.processors processor pass.old result pass.new }
        ensures grew { IsPrefix pass.old.seen pass.new.seen }
    {
        let stepped = self.stepped();
        if stepped <= slot {
            return SlotTake::NotYet;
        }
        if stepped - slot > 1 {
            return SlotTake::Past;
        }
        SlotTake::Found(self.take(pass, processor))
    }

    /// The number of entries. The pass then has seen them all.
    pub(crate) fn look(&self, pass: &mut DeskPass) -> u64
        requires { pass.old.board ≡ self.now.id }
        ensures pass { pass.new ≡ record pass.old { seen = pass.new.seen; loads = pass.old.loads ++ (0, result) ∷ [] } }
        ensures found { result ≡ length pass.new.seen }
        ensures grew { IsPrefix pass.old.seen pass.new.seen }
        ensures front { IsFront IsHistory pass.new }
    {
        self.board.look(pass)
    }

    /// Makes a change as the pass.
    ///
    /// # Errors
    ///
    /// `Busy` and `NoMemory`: no entry, and the pass is as before.
    pub(crate) fn edit(
        &self,
        pass: &mut DeskPass,
        change: Change,
        strict: bool,
    ) -> Result<Done, Unanswered>
        requires { pass.old.board ≡ self.now.id }
        ensures entered { IfOk result (λ d. Enters self.now.terms (Edit change strict) pass.old d pass.new) }
        ensures refused { OnErr result (pass.new ≡ pass.old) }
        ensures why { IfErr result (λ u. (u ≡ Busy) ⊎ (u ≡ NoMemory)) }
    {
        let Some(mut core) = self.room.enter() else {
            return Err(Unanswered::Busy);
        };
        let done = core.edit(&self.board, &self.shelf, pass, change, strict);
        self.room.leave(core);
        done
    }

    /// Takes the next slot as the pass, and issues the quanta of its row.
    ///
    /// # Errors
    ///
    /// `Busy`; `Pending` where a quantum lies untaken; `NoMemory`: no entry.
    pub(crate) fn step(&self, pass: &mut DeskPass) -> Result<Done, Unanswered>
        requires { pass.old.board ≡ self.now.id }
        ensures entered { IfOk result (λ d. Enters self.now.terms Step (found_empty self.now.processors pass.old) d pass.new) }
        ensures refused { IfErr result (λ refusal. Refuses self.now.processors pass.old refusal pass.new) }
    {
        let Some(mut core) = self.room.enter() else {
            return Err(Unanswered::Busy);
        };
        let done = core.step(&self.board, &self.shelf, pass);
        self.stepped.store(core.now(), Ordering::SeqCst);
        self.room.leave(core);
        done
    }
}

/// A shelf for so many readers that shows this.
///
/// # Errors
///
/// Where memory is refused.
fn show_first(
    alloc: Global,
    settings: Settings,
    readers: usize,
    snapshot: Arc<Snapshot>,
) -> Result<Shelf<Shown>, AllocError>
    requires readers { readers ≤ 64 }
    requires shown { IsShown settings (arc_value snapshot) }
    ensures { IfOk result (λ shelf. shelf ≡ settings) }
{
    let shelf = Shelf::new(alloc, settings, readers)?;
    match shelf.show(Shown { snapshot }) {
        Ok(()) => Ok(shelf),
        Err(_) => Err(AllocError),
    }
}
