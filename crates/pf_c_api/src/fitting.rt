ghost use Rattle.std.specs.Prelude.{◌≡◌, ◌≤◌, ◌*◌, None, [], All, IfOk};
ghost use Rattle.pf_run.specs.Computed.{run_of};
ghost use Rattle.pf_tally.specs.Figures.{figures_of};
ghost use Rattle.pf_tally.specs.Misses.{misses_of};
ghost use Rattle.pf_tally.specs.Load.{overload_of};
ghost use Rattle.pf_tally.specs.Fit.{IsFirstAbove};
ghost use Rattle.pf_laws.specs.Promise.FitLaws.{NoneIsLater};
ghost use Rattle.pf_c_forms.specs.declared.status.TheConstants.{OK};
ghost use Rattle.pf_c_api.specs.Fitting.{TellsFit, TellsRoom};
ghost use Rattle.pf_c_api.specs.Told.{Tells};

use crate::handle::Handle;
use crate::raw_fit::{RawFit, raw_fit};
use crate::raw_miss::NEVER;
use pf_c_forms::status::{NO_MEMORY, NOT_OPEN, OK};
use pf_desk::desk::Desk;
use pf_tally::fit::Fit;
use std::alloc::{AllocError, Global};

/// Tells whether no window can ever be missed, whatever is planned, until an edit brings a limit that leaves too few
/// processors in use.
///
/// # Errors
///
/// `NOT_OPEN`: `never` is as before.
#[unsafe(no_mangle)]
pub extern "C" fn pfair_never_misses(alloc: Global, desk: &mut Handle, never: &mut bool) -> u32
    ensures same { desk.new.value ≡ desk.old.value }
    ensures never { Tells desk.old.value result (λ d. (result ≡ OK) × TellsRoom d.state never.new) }
    ensures rest { (result ≡ OK → ⊥) → never.new ≡ never.old }
{
    match desk.take(alloc) {
        None => NOT_OPEN,
        Some(held) => {
            *never = never_misses(&held.desk);
            desk.put(alloc, held);
            OK
        }
    }
}

/// Whether no window of the desk can ever be missed.
fn never_misses(desk: &Desk) -> bool
    ensures { TellsRoom desk.now.state result }
{
    desk.never_misses()
}

/// Tells whether the loads of the slots stepped were within the processors in use, and if not, from which slot on and by
/// how much.
///
/// # Errors
///
/// `NO_MEMORY`, `NOT_OPEN`: `fit` is as before.
#[unsafe(no_mangle)]
pub extern "C" fn pfair_fits(alloc: Global, desk: &mut Handle, fit: &mut RawFit) -> u32
    ensures same { desk.new.value ≡ desk.old.value }
    ensures fit { Tells desk.old.value result (λ d. TellsFit d result fit.new) }
    ensures rest { (result ≡ OK → ⊥) → fit.new ≡ fit.old }
{
    match desk.take(alloc) {
        None => NOT_OPEN,
        Some(held) => {
            let status = write_fit(&held.desk, fit);
            desk.put(alloc, held);
            status
        }
    }
}

/// Writes the fit.
fn write_fit(desk: &Desk, fit: &mut RawFit) -> u32
    ensures fit { TellsFit desk.now result fit.new }
    ensures rest { (result ≡ OK → ⊥) → fit.new ≡ fit.old }
{
    match fits(desk) {
        Ok(found) => {
            // A first slot is below now, so `NEVER` tells of none.
            let now = desk.now();
            prove!(now <= NEVER);
            *fit = raw_fit(found);
            OK
        }
        Err(_) => NO_MEMORY,
    }
}

/// The fit of the run so far.
fn fits(desk: &Desk) -> Result<Fit, AllocError>
    ensures first { IfOk result (λ fit. IsFirstAbove desk.now.state.plan (run_of desk.now.state.plan desk.now.state.now) desk.now.state.now fit.first) }
    ensures overload { IfOk result (λ fit. fit.overload ≡ overload_of desk.now.state.plan (run_of desk.now.state.plan desk.now.state.now) desk.now.state.now) }
    ensures none { IfOk result (λ fit. fit.first ≡ None → misses_of desk.now.state.plan (run_of desk.now.state.plan desk.now.state.now) ≡ []) }
    ensures late { IfOk result (λ fit. All (λ f. desk.now.state.plan.settings.base * f.tardiness ≤ fit.overload)
        (figures_of desk.now.state.plan (run_of desk.now.state.plan desk.now.state.now) desk.now.rows)) }
    ensures overdue { IfOk result (λ fit. NoneIsLater desk.now.state.plan (run_of desk.now.state.plan desk.now.state.now) desk.now.state.now fit.overload) }
{
    let snapshot = desk.snapshot()?;
    let fit = snapshot.fits()?;
    Ok(fit)
}
