ghost use Rattle.std.specs.Prelude.{◌≡◌, ◌↔◌, ◌≤◌, [], IfOk, Err, All, map};
ghost use Rattle.std.specs.Arc.{arc_value};
ghost use Rattle.pf_desk.specs.declared.fault.OpenFault.TheVariants.{BadSettings};
ghost use Rattle.pf_desk.specs.Desk.{IsDesk};
ghost use Rattle.pf_desk.specs.Machine.{opening_state};
ghost use Rattle.pf_shared_desk.specs.Opening.{AreNewCallers, IsBadOpening, caller_at, new_readers};

use crate::caller::Caller;
use crate::common::Common;
use crate::reader::Reader;
use pf_desk::desk::Desk;
use pf_desk::fault::OpenFault;
use pf_desk_board::calls::DeskPass;
use pf_scenario::settings::Settings;
use std::alloc::{AllocError, Global};
use std::sync::Arc;

/// The most callers of a desk.
pub const MOST_CALLERS: u64 = 128;

/// The most readers of a desk.
pub const MOST_READERS: u64 = 64;

/// A shared desk that was just opened: all its callers, numbered from 0, and all its readers. They are dropped in any
/// order, and the last one ends the desk.
#[derive(Drop)]
pub struct Opened {
    pub callers: Vec<Caller>,
    pub readers: Vec<Reader>,
}

impl Opened {
    /// A desk with these settings, no event, no slot stepped and no history, which is shown. `every` is the distance of its
    /// checkpoints in slots, 1 to `LARGEST_DISTANCE` of pf_scenario; it has 1 to `MOST_CALLERS` callers, and at most
    /// `MOST_READERS` readers.
    ///
    /// # Errors
    ///
    /// `BadSettings` where one of the three is out of its limits; `NoMemory` where memory is refused.
    pub fn open(
        alloc: Global,
        settings: Settings,
        every: u64,
        callers: u64,
        readers: u64,
    ) -> Result<Opened, OpenFault>
        ensures bad_settings { (result ≡ Err BadSettings) ↔ IsBadOpening every callers readers }
        ensures callers { IfOk result (λ o. AreNewCallers settings callers o.callers.items) }
        ensures readers { IfOk result (λ o. o.readers.items ≡ new_readers settings readers) }
    {
        if callers == 0 || callers > MOST_CALLERS || readers > MOST_READERS {
            return Err(OpenFault::BadSettings);
        }
        match Desk::open(alloc, settings, every) {
            Ok(desk) => match Opened::over(
                alloc,
                settings,
                desk,
                callers as u32,
                readers as usize,
            ) {
                Ok(opened) => Ok(opened),
                Err(_) => Err(OpenFault::NoMemory),
            },
            Err(fault) => Err(fault),
        }
    }

    /// The same over a desk that has no history yet.
    fn over(
        alloc: Global,
        settings: Settings,
        desk: Desk,
        callers: u32,
        readers: usize,
    ) -> Result<Opened, AllocError>
        requires desk { IsDesk desk × (desk.state ≡ opening_state settings) × (desk.history ≡ []) }
        requires readers { readers ≤ 64 }
        ensures callers { IfOk result (λ o. AreNewCallers settings callers o.callers.items) }
        ensures readers { IfOk result (λ o. o.readers.items ≡ new_readers settings readers) }
    {
        let (made, passes) = Common::over(alloc, settings, desk, callers, readers)?;
        let common = Arc::new(alloc, made)?;
        let callers = make_callers(alloc, &common, passes)?;
        let readers = make_readers(alloc, &common, readers)?;
        Ok(Opened { callers, readers })
    }
}

/// A caller for each pass.
///
/// # Errors
///
/// Where memory is refused.
fn make_callers(
    alloc: Global,
    common: &Arc<Common>,
    passes: Vec<DeskPass>,
) -> Result<Vec<Caller>, AllocError>
    requires { All (λ p. p.board ≡ (arc_value common.now).id) passes.items }
    ensures { IfOk result (λ v. v.items ≡ map (caller_at (arc_value common.now)) passes.items) }
{
    let mut callers = Vec::new(alloc);
    for pass in passes {
        let again = Arc::try_clone(common)?;
        callers.push(Caller::new(again, pass))?;
    }
    Ok(callers)
}

/// So many readers.
///
/// # Errors
///
/// Where memory is refused.
fn make_readers(
    alloc: Global,
    common: &Arc<Common>,
    count: usize,
) -> Result<Vec<Reader>, AllocError>
    ensures { IfOk result (λ v. v.items ≡ new_readers (arc_value common.now).terms count) }
{
    let mut readers = Vec::new(alloc);
    for _ in 0..count {
        let again = Arc::try_clone(common)?;
        readers.push(Reader::new(again))?;
    }
    Ok(readers)
}
