ghost use Rattle.std.specs.Prelude.{◌≡◌, ◌⊎◌, None, IfOk, IfErr};
ghost use Rattle.pf_scenario.specs.System.{near_horizon, wide_horizon};
ghost use Rattle.pf_c_forms.specs.declared.status.TheConstants.{BAD_SETTINGS, NO_MEMORY};
ghost use Rattle.pf_c_api.specs.Commanded.{IsBadDistance, IsNewDesk, IsOpened, Opens, OpensNone};

use crate::handle::Handle;
use crate::held::Held;
use pf_c_forms::status::{ALREADY_OPEN, BAD_SETTINGS, NO_MEMORY, OK};
use pf_desk::desk::Desk;
use pf_desk::fault::OpenFault;
use pf_scenario::fault::BadSettings;
use pf_scenario::settings::Settings;
use pf_vocabulary::names::titles::Titles;
use std::alloc::Global;

/// Opens a desk at a closed handle: m processors (1 to 64), the base h (1 to 2^30), a cap in 1/h (1 to 2^44), a checkpoint
/// each `every` slots (1 to 4,096), and 2^20 slots. The handle is as before at every status but `OK`.
///
/// # Errors
///
/// `ALREADY_OPEN` where the handle has a desk, `BAD_SETTINGS` where a number is out of its limits, `NO_MEMORY`.
#[unsafe(no_mangle)]
pub extern "C" fn pfair_open(
    alloc: Global,
    desk: &mut Handle,
    m: u64,
    h: u64,
    cap: u64,
    every: u64,
) -> u32
    ensures { Opens m h cap near_horizon every desk.old.value result desk.new.value }
{
    match desk.take(alloc) {
        Some(held) => {
            desk.put(alloc, held);
            ALREADY_OPEN
        }
        None => match near_desk(alloc, m, h, cap, every) {
            Ok(held) => {
                desk.put(alloc, held);
                OK
            }
            Err(status) => status,
        },
    }
}

/// The same with 2^22 slots.
#[unsafe(no_mangle)]
pub extern "C" fn pfair_open_wide(
    alloc: Global,
    desk: &mut Handle,
    m: u64,
    h: u64,
    cap: u64,
    every: u64,
) -> u32
    ensures { Opens m h cap wide_horizon every desk.old.value result desk.new.value }
{
    match desk.take(alloc) {
        Some(held) => {
            desk.put(alloc, held);
            ALREADY_OPEN
        }
        None => match wide_desk(alloc, m, h, cap, every) {
            Ok(held) => {
                desk.put(alloc, held);
                OK
            }
            Err(status) => status,
        },
    }
}

/// Closes the desk and gives its memory back. A handle without a desk stays so.
#[unsafe(no_mangle)]
pub extern "C" fn pfair_close(alloc: Global, desk: &mut Handle)
    ensures { desk.new.value ≡ None }
{
    match desk.take(alloc) {
        None => {}
        Some(held) => drop(held),
    }
}

/// A desk of 2^20 slots.
fn near_desk(alloc: Global, m: u64, h: u64, cap: u64, every: u64) -> Result<Box<Held>, u32>
    ensures ok { IfOk result (λ held. IsOpened m h cap near_horizon every held.value) }
    ensures err { IfErr result (OpensNone m h cap every) }
{
    match Settings::new(m, h, cap) {
        Ok(settings) => boxed_desk(alloc, settings, every, Titles::none(alloc)),
        Err(BadSettings) => Err(BAD_SETTINGS),
    }
}

/// A desk of 2^22 slots.
fn wide_desk(alloc: Global, m: u64, h: u64, cap: u64, every: u64) -> Result<Box<Held>, u32>
    ensures ok { IfOk result (λ held. IsOpened m h cap wide_horizon every held.value) }
    ensures err { IfErr result (OpensNone m h cap every) }
{
    match Settings::wide(m, h, cap) {
        Ok(settings) => boxed_desk(alloc, settings, every, Titles::none(alloc)),
        Err(BadSettings) => Err(BAD_SETTINGS),
    }
}

/// A desk of these settings, with these titles.
pub(crate) fn boxed_desk(
    alloc: Global,
    settings: Settings,
    every: u64,
    titles: Titles,
) -> Result<Box<Held>, u32>
    ensures desk { IfOk result (λ held. IsNewDesk settings every held.value.desk) }
    ensures titles { IfOk result (λ held. held.value.titles ≡ titles) }
    ensures distance { IfOk result (λ held. IsBadDistance every → ⊥) }
    ensures err { IfErr result
        (λ status. ((status ≡ NO_MEMORY) × (IsBadDistance every → ⊥)) ⊎ ((status ≡ BAD_SETTINGS) × IsBadDistance every)) }
{
    let desk = match Desk::open(alloc, settings, every) {
        Ok(desk) => desk,
        Err(OpenFault::BadSettings) => return Err(BAD_SETTINGS),
        Err(OpenFault::NoMemory) => return Err(NO_MEMORY),
    };
    match Box::new(alloc, Held { desk, titles }) {
        Ok(held) => Ok(held),
        Err(_) => Err(NO_MEMORY),
    }
}
