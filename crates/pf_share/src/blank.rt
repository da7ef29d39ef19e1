ghost use Rattle.std.specs.Prelude.{◌≡◌, ◌≢◌, ◌↔◌, ◌<◌, ◌^◌, [], IfOk, IfErr, IsTrue, IsFalse, Err};
ghost use Rattle.pf_board.specs.Passes.{new_passes};
ghost use Rattle.pf_desk.specs.Desk.{IsDesk};
ghost use Rattle.pf_desk.specs.Machine.{opening_state};
ghost use Rattle.pf_share.specs.declared.fault.OpenFault.TheVariants.{BadSettings};
ghost use Rattle.pf_share.specs.Locked.{origin_of};
ghost use Rattle.pf_share.specs.Opening.{IsBadOpening, IsBeyond, new_viewers};

use crate::calls::{DeskBoard, DeskKeeper, DeskPass};
use crate::fault::OpenFault;
use crate::locked::Locked;
use crate::naming::Naming;
use crate::opened::Opened;
use crate::press::Press;
use crate::publication::{Publication, Scarcity};
use crate::publisher::Publisher;
use crate::shared::Shared;
use crate::stamp::Stamp;
use crate::viewer::Viewer;
use pf_desk::desk::Desk;
use pf_scenario::settings::Settings;
use std::alloc::Global;
use std::marker::Model;
use std::sync::Wait;

/// The most passes of a desk.
pub const MOST_PASSES: u64 = 128;

/// The most viewers of a desk.
pub const MOST_READERS: u64 = 16;

/// A desk with an empty history that is not yet bound to its type-level name: `start` binds it.
#[derive(Drop)]
pub struct Blank<H: Wait + Drop> {
    board: DeskBoard,
    keeper: DeskKeeper,
    desk: Desk,
    press: Press,
    stamp: Stamp,
    publisher: Publisher<H>,
    passes: Vec<DeskPass>,
    viewers: Vec<Viewer>,
}

impl<H: Wait + Drop> Model for Blank<H> {
    ghost use Rattle.std.specs.Prelude.{◌≡◌, []};
    ghost use Rattle.pf_share.specs.Locked.{IsLocked};
    ghost use Rattle.pf_share.specs.Opening.{Opening};

    ghost Value = { Opening };

    ghost view = { λ b. record { board = b.board; book = b.press; desk = b.desk; passes = b.passes.items; viewers = b.viewers.items } };

    ghost invariant = { λ b. IsLocked b.board b.press b.desk b.keeper b.press b.stamp b.publisher × (b.desk.history ≡ []) };
}

impl<H: Wait + Drop> Blank<H> {
    /// A desk with these settings, no event, no slot stepped and no history, which is shown. `every` is the distance of
    /// its checkpoints in slots, 1 to `LARGEST_DISTANCE` of pf_scenario; it has 1 to `MOST_PASSES` passes, numbered
    /// from 0, and 1 to `MOST_READERS` viewers.
    ///
    /// # Errors
    ///
    /// `BadSettings` where one of the three is out of its limits; `NoViewer` where the readers' table gives no place;
    /// `NoMemory` where memory is refused.
    pub fn open(
        rt: H,
        alloc: Global,
        settings: Settings,
        every: u64,
        passes: u64,
        readers: u64,
    ) -> Result<Self, OpenFault>
        ensures bad_settings { (result ≡ Err BadSettings) ↔ IsBadOpening every passes readers }
        ensures settings { IfOk result (λ b. b.board.terms ≡ settings) }
        ensures counts { IfOk result (λ b. (b.board.processors ≡ settings.processors) × (b.board.passes ≡ passes)) }
        ensures desk { IfOk result (λ b. IsDesk b.desk × (b.desk.state ≡ opening_state settings) × (b.desk.history ≡ [])) }
        ensures passes { IfOk result (λ b. b.passes ≡ new_passes b.board.id settings passes) }
        ensures viewers { IfOk result (λ b. b.viewers ≡ new_viewers (origin_of b.board b.book) readers) }
    {
        if !is_within(MOST_PASSES, passes) || !is_within(MOST_READERS, readers) {
            return Err(OpenFault::BadSettings);
        }
        match Desk::open(alloc, settings, every) {
            Ok(desk) => Blank::opened(rt, alloc, settings, desk, passes as u32, readers as usize),
            Err(fault) => Err(OpenFault::from(fault)),
        }
    }

    /// The same, over a desk with these settings that has no history yet.
    fn opened(
        rt: H,
        alloc: Global,
        settings: Settings,
        desk: Desk,
        passes: u32,
        readers: usize,
    ) -> Result<Self, OpenFault>
        requires desk { IsDesk desk × (desk.state ≡ opening_state settings) × (desk.history ≡ []) }
        requires readers { (0 < readers) × (readers < 2 ^ 32) }
        ensures scarce { IfErr result (λ fault. fault ≢ BadSettings) }
        ensures settings { IfOk result (λ b. b.board.terms ≡ settings) }
        ensures counts { IfOk result (λ b. (b.board.processors ≡ settings.processors) × (b.board.passes ≡ passes)) }
        ensures desk { IfOk result (λ b. IsDesk b.desk × (b.desk.state ≡ opening_state settings) × (b.desk.history ≡ [])) }
        ensures passes { IfOk result (λ b. b.passes ≡ new_passes b.board.id settings passes) }
        ensures viewers { IfOk result (λ b. b.viewers ≡ new_viewers (origin_of b.board b.book) readers) }
    {
        match Blank::founded(rt, alloc, settings, desk, passes, readers) {
            Ok(blank) => Ok(blank),
            Err(Scarcity::NoViewer) => Err(OpenFault::NoViewer),
            Err(Scarcity::NoMemory) => Err(OpenFault::NoMemory),
        }
    }

    /// The same, but for why there is none.
    fn founded(
        rt: H,
        alloc: Global,
        settings: Settings,
        desk: Desk,
        passes: u32,
        readers: usize,
    ) -> Result<Self, Scarcity>
        requires desk { IsDesk desk × (desk.state ≡ opening_state settings) × (desk.history ≡ []) }
        requires readers { (0 < readers) × (readers < 2 ^ 32) }
        ensures settings { IfOk result (λ b. b.board.terms ≡ settings) }
        ensures counts { IfOk result (λ b. (b.board.processors ≡ settings.processors) × (b.board.passes ≡ passes)) }
        ensures desk { IfOk result (λ b. IsDesk b.desk × (b.desk.state ≡ opening_state settings) × (b.desk.history ≡ [])) }
        ensures passes { IfOk result (λ b. b.passes ≡ new_passes b.board.id settings passes) }
        ensures viewers { IfOk result (λ b. b.viewers ≡ new_viewers (origin_of b.board b.book) readers) }
    {
        let publication = Publication::of(rt, alloc, &desk, readers)?;
        let processors = settings.processors();
        let (board, keeper, passes) = DeskBoard::new(alloc, &settings, processors, passes)?;
        let Publication {
            press,
            stamp,
            publisher,
            viewers,
        } = publication;
        Ok(Blank {
            board,
            keeper,
            desk,
            press,
            stamp,
            publisher,
            passes,
            viewers,
        })
    }

    /// The desk under a name.
    pub fn start<N: Naming>(self) -> Opened<N, H>
        requires { (self.board ≡ N.board) × (self.book ≡ N.book) }
        ensures { (result.passes.items ≡ self.passes) × (result.viewers.items ≡ self.viewers) }
    {
        let Blank {
            board,
            keeper,
            desk,
            press,
            stamp,
            publisher,
            passes,
            viewers,
        } = self;
        let locked = Locked::new(desk, keeper, press, stamp, publisher);
        Opened {
            shared: Shared::new(board, locked),
            passes,
            viewers,
        }
    }
}

/// Whether the number is 1 to `most`.
fn is_within(most: u64, number: u64) -> bool
    ensures beyond { IsFalse result → IsBeyond most number }
    ensures within { IsTrue result → ¬ IsBeyond most number }
{
    0 < number && number <= most
}
