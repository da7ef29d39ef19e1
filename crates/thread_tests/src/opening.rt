//! A desk from its opening to its end.
ghost use Rattle.std.specs.Prelude.{◌≡◌, All, IfOk};
ghost use Rattle.pf_board.specs.Passes.{AreOf};
ghost use Rattle.pf_share.specs.Locked.{origin_of};

use crate::answers::pair_of_entry;
use crate::passes::{close, let_go, put_two};
use crate::refused::say;
use pf_board::quantum::Quantum;
use pf_desk::history::History;
use pf_scenario::settings::Settings;
use pf_share::blank::Blank;
use pf_share::calls::DeskPass;
use pf_share::closed::Closed;
use pf_share::fault::OpenFault;
use pf_share::naming::Naming;
use pf_share::opened::Opened;
use std::alloc::Global;
use std::process::Abort;
use std::sync::Wait;

/// A desk with these settings, whose checkpoints lie so far apart, with so many passes and viewers.
#[tactic(auto, using(crate::proofs::Boarded::boarded, crate::proofs::Boarded::viewed))]
pub(crate) fn open_desk<R: Wait>(
    rt: &R,
    alloc: Global,
    settings: Settings,
    every: u64,
    passes: u64,
    viewers: u64,
) -> Result<Blank<&R>, OpenFault>
    ensures passes { IfOk result (λ b. AreOf b.board.id b.passes) }
    ensures viewers { IfOk result (λ b. All (λ v. v.origin ≡ origin_of b.board b.book) b.viewers) }
{
    Blank::open(rt, alloc, settings, every, passes, viewers)
}

/// The desk under a name.
pub(crate) fn start<N: Naming, H: Wait + Drop>(blank: Blank<H>) -> Opened<N, H>
    requires name { (blank.board ≡ N.board) × (blank.book ≡ N.book) }
    requires passes { AreOf N.board.id blank.passes }
    requires viewers { All (λ v. v.origin ≡ origin_of N.board N.book) blank.viewers }
    ensures passes { AreOf N.board.id result.passes.items }
    ensures viewers { All (λ v. v.origin ≡ origin_of N.board N.book) result.viewers.items }
{
    blank.start::<N>()
}

/// Ends the desk. Where that is refused, all came back.
fn close_again<N: Naming, H: Wait + Drop>(
    rt: &(impl Wait + Abort + Print),
    opened: Opened<N, H>,
) -> Option<Closed>
    requires { AreOf N.board.id opened.passes.items }
{
    let Opened {
        shared,
        passes,
        viewers,
    } = opened;
    match shared.close(rt, passes, viewers) {
        Ok(closed) => Some(closed),
        Err(opened) => {
            say(rt, "Shared::close");
            close(rt, opened)
        }
    }
}

/// What is left of the desk, once these two passes are put back.
pub(crate) fn end<N: Naming, H: Wait + Drop>(
    rt: &(impl Wait + Abort + Print),
    mut opened: Opened<N, H>,
    first: DeskPass,
    second: DeskPass,
) -> Option<Closed>
    requires rest { AreOf N.board.id opened.passes.items }
    requires board { (first.board ≡ N.board.id) × (second.board ≡ N.board.id) }
{
    if put_two::<N>(&mut opened.passes, first, second) {
        close_again(rt, opened)
    } else {
        let_go(opened);
        None
    }
}

/// Whether the desk was closed. Fails the test where other quanta are left of it than these, or its history has not so many
/// entries, or the fourth of them is not the step of slot 0 as it was answered.
pub(crate) fn is_closed(
    rt: &impl Abort,
    closed: Option<Closed>,
    left: &[Quantum],
    entries: usize,
) -> bool {
    match closed {
        Some(closed) => {
            assert_eq!(rt; closed.left.as_slice(), left);
            expect_history(rt, closed.desk.history(), entries);
            drop(closed);
            true
        }
        None => false,
    }
}

/// Fails the test where the history has not so many entries, or the fourth of them is another one.
fn expect_history(rt: &impl Abort, history: &History, entries: usize) {
    assert_eq!(rt; history.len(), entries);
    assert_eq!(rt; pair_of_entry(history, 3), Some((0, [(1, 1), (2, 1)])));
}
