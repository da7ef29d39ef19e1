//! Calls that are made again where memory is refused. Each says so, and answers as its example: so no entry was made where it
//! was refused.
ghost use Rattle.std.specs.Prelude.{◌≡◌, All, IfOk};
ghost use Rattle.pf_board.specs.Passes.{AreOf};
ghost use Rattle.pf_share.specs.Locked.{origin_of};

use crate::answers::{Edited, Taken, expect_edit, expect_step, join};
use crate::calls::{edit, step};
use crate::opening::open_desk;
use crate::refused::say;
use pf_scenario::change::Change;
use pf_scenario::settings::Settings;
use pf_share::blank::Blank;
use pf_share::calls::DeskPass;
use pf_share::fault::OpenFault;
use pf_share::locked::Locked;
use pf_share::naming::Naming;
use pf_share::shared::Shared;
use pf_share::step_refusal::StepRefusal;
use std::alloc::{AllocError, Global};
use std::process::Abort;
use std::sync::Wait;

/// A desk, opened again where memory is refused.
pub(crate) fn open_again<R: Wait + Abort + Print>(
    rt: &R,
    alloc: Global,
    settings: Settings,
    every: u64,
    passes: u64,
    viewers: u64,
) -> Result<Blank<&R>, OpenFault>
    ensures passes { IfOk result (λ b. AreOf b.board.id b.passes) }
    ensures viewers { IfOk result (λ b. All (λ v. v.origin ≡ origin_of b.board b.book) b.viewers) }
{
    match open_desk(rt, alloc, settings, every, passes, viewers) {
        Err(OpenFault::NoMemory) => {
            say(rt, "Blank::open");
            open_desk(rt, alloc, settings, every, passes, viewers)
        }
        opened => opened,
    }
}

/// Makes a change, again where memory is refused.
fn edit_again<N: Naming, H: Wait + Drop>(
    rt: &(impl Wait + Abort + Print),
    shared: &Shared<N, Locked<N, H>>,
    pass: &mut DeskPass,
    change: Change,
) -> Result<Option<Edited>, AllocError>
    requires { pass.old.board ≡ N.board.id }
    ensures { pass.new.board ≡ N.board.id }
{
    match edit(rt, shared, pass, change) {
        Ok(edited) => Ok(edited),
        Err(AllocError) => {
            say(rt, "Shared::edit");
            edit(rt, shared, pass, change)
        }
    }
}

/// Takes the next slot, again where memory is refused.
fn step_again<N: Naming, H: Wait + Drop>(
    rt: &(impl Wait + Abort + Print),
    shared: &Shared<N, Locked<N, H>>,
    pass: &mut DeskPass,
) -> Result<Option<Taken>, StepRefusal>
    requires { pass.old.board ≡ N.board.id }
    ensures { pass.new.board ≡ N.board.id }
{
    match step(rt, shared, pass) {
        Err(StepRefusal::NoMemory) => {
            say(rt, "Shared::step");
            step(rt, shared, pass)
        }
        stepped => stepped,
    }
}

/// Three tasks join, each of weight 2/3, and slot 0 is taken.
pub(crate) fn plan<N: Naming, H: Wait + Drop>(
    rt: &(impl Wait + Abort + Print),
    shared: &Shared<N, Locked<N, H>>,
    pass: &mut DeskPass,
)
    requires { pass.old.board ≡ N.board.id }
    ensures { pass.new.board ≡ N.board.id }
{
    for task in 1..4 {
        let joined = edit_again(rt, shared, pass, join(task, 2, 3));
        expect_edit(rt, joined, (task, task));
    }
    let stepped = step_again(rt, shared, pass);
    expect_step(rt, stepped, Ok((0, [(1, 1), (2, 1)], 4)));
}
