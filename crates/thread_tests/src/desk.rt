//! A desk from its opening to its end, as large as it may be. Each call that was refused is made again.
ghost use Rattle.std.specs.Prelude.{◌≡◌, All};
ghost use Rattle.pf_board.specs.Passes.{AreOf};
ghost use Rattle.pf_share.specs.Locked.{origin_of};

use crate::again::{open_again, plan};
use crate::answers::{expect_step, expect_take, quantum};
use crate::calls::{look, read, step, take};
use crate::opening::{end, is_closed, start};
use crate::passes::{let_go, pop_seats};
use pf_board::take::Take;
use pf_scenario::settings::Settings;
use pf_share::blank::Blank;
use pf_share::calls::DeskPass;
use pf_share::locked::Locked;
use pf_share::naming::Naming;
use pf_share::opened::Opened;
use pf_share::shared::Shared;
use pf_share::step_refusal::StepRefusal;
use pf_share::viewer::Viewer;
use std::marker::Brand;
use std::process::Abort;
use std::sync::Wait;
use std::test::Fail;

/// What the one plans is seen by the other, also where they meet. One of the two quanta is taken.
fn use_both<N: Naming, H: Wait + Drop>(
    rt: &(impl Wait + Abort + Print),
    shared: &Shared<N, Locked<N, H>>,
    first: &mut DeskPass,
    second: &mut DeskPass,
)
    requires { (first.old.board ≡ N.board.id) × (second.old.board ≡ N.board.id) }
    ensures { (first.new.board ≡ N.board.id) × (second.new.board ≡ N.board.id) }
{
    plan(rt, shared, first);
    assert_eq!(rt; look(shared, second), 4);
    shared.meet(first, second);
    expect_take(rt, take(shared, first, 0), Take::Got(quantum(0, 0, 1, 1)));
    let pending = StepRefusal::Pending { processor: 1 };
    expect_step(rt, step(rt, shared, second), Err(pending));
}

/// The viewer reads the empty history, and then what the two passes did, of which it is told.
fn use_all<N: Naming, H: Wait + Drop>(
    rt: &(impl Wait + Abort + Print),
    shared: &Shared<N, Locked<N, H>>,
    first: &mut DeskPass,
    second: &mut DeskPass,
    viewer: &mut Viewer,
)
    requires passes { (first.old.board ≡ N.board.id) × (second.old.board ≡ N.board.id) }
    requires viewer { viewer.old.origin ≡ origin_of N.board N.book }
    ensures { (first.new.board ≡ N.board.id) × (second.new.board ≡ N.board.id) }
{
    assert_eq!(rt; read(shared, viewer), Ok(0));
    use_both(rt, shared, first, second);
    let told = shared.tell(rt, first, viewer);
    assert_eq!(rt; told, Ok(()));
    assert_eq!(rt; read(shared, viewer), Ok(4));
}

/// Ends the desk but for this viewer. Whether it then reads nothing, and the desk was closed.
fn end_but_for<N: Naming, H: Wait + Drop>(
    rt: &(impl Wait + Abort + Print),
    opened: Opened<N, H>,
    first: DeskPass,
    second: DeskPass,
    mut viewer: Viewer,
) -> bool
    requires rest { AreOf N.board.id opened.passes.items }
    requires board { (first.board ≡ N.board.id) × (second.board ≡ N.board.id) }
{
    let closed = end(rt, opened, first, second);
    let reads_nothing = viewer.read().is_err();
    is_closed(rt, closed, &[quantum(0, 1, 2, 1)], 4) && reads_nothing
}

/// Whether the desk was used and ended.
fn use_desk<N: Naming, H: Wait + Drop>(rt: &(impl Wait + Abort + Print), blank: Blank<H>) -> bool
    requires name { (blank.board ≡ N.board) × (blank.book ≡ N.book) }
    requires passes { AreOf N.board.id blank.passes }
    requires viewers { All (λ v. v.origin ≡ origin_of N.board N.book) blank.viewers }
{
    let mut opened = start::<N, H>(blank);
    match pop_seats(&mut opened) {
        Some(((mut first, mut second), mut viewer)) => {
            use_all(rt, &opened.shared, &mut first, &mut second, &mut viewer);
            end_but_for(rt, opened, first, second, viewer)
        }
        None => {
            let_go(opened);
            false
        }
    }
}

#[test]
fn a_desk_is_used_again(rt: HostRuntime) -> Result<(), Fail> {
    let blank = open_again(&rt, rt.alloc(), Settings::new(2, 3, 6)?, 4_096, 128, 16)?;
    assert!(rt; use_desk::<Brand, _>(&rt, blank));
    Ok(())
}
