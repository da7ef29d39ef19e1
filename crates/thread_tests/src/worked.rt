//! The worked examples of a desk of two processors with two passes and a viewer, at which tasks of weight 2/3 join.
ghost use Rattle.std.specs.Prelude.{◌≡◌, All};
ghost use Rattle.pf_board.specs.Passes.{AreOf};
ghost use Rattle.pf_share.specs.Locked.{origin_of};

use crate::again::{open_again, plan};
use crate::answers::{expect_edit, expect_step, expect_take, join, quantum};
use crate::calls::{edit, look, read, read_event, read_pair, step, take};
use crate::opening::{end, is_closed, start};
use crate::passes::{let_go, pop_seats};
use pf_board::take::Take;
use pf_scenario::change::Change;
use pf_scenario::event::Event;
use pf_scenario::settings::Settings;
use pf_share::blank::Blank;
use pf_share::calls::DeskPass;
use pf_share::closed::Closed;
use pf_share::locked::Locked;
use pf_share::naming::Naming;
use pf_share::shared::Shared;
use pf_share::step_refusal::StepRefusal;
use pf_share::viewer::Viewer;
use std::marker::Brand;
use std::process::Abort;
use std::sync::Wait;
use std::test::Fail;

/// What is done at the desk before it is closed.
#[derive(Clone, Copy)]
enum Example {
    /// Both quanta of slot 0 are taken, a join of the past is struck, and slot 1 is taken.
    Struck,
    /// A viewer reads before the first join and after it.
    Told,
    /// Slot 0 is taken, and none of its quanta.
    Untaken,
}

/// The first pass plans a slot and takes the quantum of processor 0. The second one takes that of processor 1, before which it
/// gets no further slot, and gets nothing more.
fn take_both<N: Naming, H: Wait + Drop>(
    rt: &(impl Wait + Abort + Print),
    shared: &Shared<N, Locked<N, H>>,
    first: &mut DeskPass,
    second: &mut DeskPass,
)
    requires { (first.old.board ≡ N.board.id) × (second.old.board ≡ N.board.id) }
    ensures { (first.new.board ≡ N.board.id) × (second.new.board ≡ N.board.id) }
{
    plan(rt, shared, first);
    expect_take(rt, take(shared, first, 0), Take::Got(quantum(0, 0, 1, 1)));
    let pending = StepRefusal::Pending { processor: 1 };
    expect_step(rt, step(rt, shared, second), Err(pending));
    expect_take(rt, take(shared, second, 1), Take::Got(quantum(0, 1, 2, 1)));
    expect_take(rt, take(shared, second, 0), Take::Empty);
    expect_take(rt, take(shared, second, 2), Take::NoProcessor);
}

/// The first pass strikes the second task's join, with which slot 0 is as if that task had never been there. The second pass
/// takes slot 1.
fn strike<N: Naming, H: Wait + Drop>(
    rt: &(impl Wait + Abort),
    shared: &Shared<N, Locked<N, H>>,
    first: &mut DeskPass,
    second: &mut DeskPass,
    viewer: &mut Viewer,
)
    requires passes { (first.old.board ≡ N.board.id) × (second.old.board ≡ N.board.id) }
    requires viewer { viewer.old.origin ≡ origin_of N.board N.book }
    ensures { (first.new.board ≡ N.board.id) × (second.new.board ≡ N.board.id) }
{
    let struck = edit(rt, shared, first, Change::Strike(2));
    expect_edit(rt, struck, (2, 5));
    assert_eq!(rt; read_pair(shared, viewer, 0), Ok(Some([(1, 1), (3, 1)])));
    let stepped = step(rt, shared, second);
    expect_step(rt, stepped, Ok((1, [(1, 2), (3, 2)], 6)));
}

/// The viewer reads that nothing was done, and then the join of which it is told.
fn tell<N: Naming, H: Wait + Drop>(
    rt: &(impl Wait + Abort),
    shared: &Shared<N, Locked<N, H>>,
    pass: &mut DeskPass,
    viewer: &mut Viewer,
)
    requires pass { pass.old.board ≡ N.board.id }
    requires viewer { viewer.old.origin ≡ origin_of N.board N.book }
    ensures { pass.new.board ≡ N.board.id }
{
    assert_eq!(rt; read(shared, viewer), Ok(0));
    let joined = edit(rt, shared, pass, join(1, 2, 3));
    expect_edit(rt, joined, (1, 1));
    let told = shared.tell(rt, pass, viewer);
    assert_eq!(rt; told, Ok(()));
    let event = Event::Join {
        slot: 0,
        task: 1,
        cost: 2,
        period: 3,
        early: 0,
    };
    assert_eq!(rt; read_event(shared, viewer, 1), Ok((1, Some(event))));
}

/// Does what the example does.
fn follow<N: Naming, H: Wait + Drop>(
    rt: &(impl Wait + Abort + Print),
    example: Example,
    shared: &Shared<N, Locked<N, H>>,
    first: &mut DeskPass,
    second: &mut DeskPass,
    viewer: &mut Viewer,
)
    requires passes { (first.old.board ≡ N.board.id) × (second.old.board ≡ N.board.id) }
    requires viewer { viewer.old.origin ≡ origin_of N.board N.book }
    ensures { (first.new.board ≡ N.board.id) × (second.new.board ≡ N.board.id) }
{
    match example {
        Example::Struck => {
            take_both(rt, shared, first, second);
            strike(rt, shared, first, second, viewer);
        }
        Example::Told => tell(rt, shared, first, viewer),
        Example::Untaken => {
            plan(rt, shared, first);
            assert_eq!(rt; look(shared, second), 4);
            shared.meet(first, second);
        }
    }
}

/// What is left of the desk after this example.
fn use_desk<N: Naming, H: Wait + Drop>(
    rt: &(impl Wait + Abort + Print),
    example: Example,
    blank: Blank<H>,
) -> Option<Closed>
    requires name { (blank.board ≡ N.board) × (blank.book ≡ N.book) }
    requires passes { AreOf N.board.id blank.passes }
    requires viewers { All (λ v. v.origin ≡ origin_of N.board N.book) blank.viewers }
{
    let mut opened = start::<N, H>(blank);
    match pop_seats(&mut opened) {
        Some(((mut first, mut second), mut viewer)) => {
            follow(
                rt,
                example,
                &opened.shared,
                &mut first,
                &mut second,
                &mut viewer,
            );
            end(rt, opened, first, second)
        }
        None => {
            let_go(opened);
            None
        }
    }
}

/// What is left of a desk that was opened for this example.
fn run(
    rt: &(impl Wait + Abort + Print + AllocGlobal),
    example: Example,
) -> Result<Option<Closed>, Fail> {
    let blank = open_again(rt, rt.alloc(), Settings::new(2, 3, 6)?, 2, 2, 1)?;
    Ok(use_desk::<Brand, _>(rt, example, blank))
}

#[test]
fn a_shared_desk_as_worked(rt: HostRuntime) -> Result<(), Fail> {
    let closed = run(&rt, Example::Struck)?;
    let left = [quantum(1, 0, 1, 2), quantum(1, 1, 3, 2)];
    assert!(&rt; is_closed(&rt, closed, &left, 6));
    Ok(())
}

#[test]
fn a_viewer_is_told(rt: HostRuntime) -> Result<(), Fail> {
    let closed = run(&rt, Example::Told)?;
    assert!(&rt; closed.is_some());
    Ok(())
}

#[test]
fn closing_an_untaken_step(rt: HostRuntime) -> Result<(), Fail> {
    let closed = run(&rt, Example::Untaken)?;
    let left = [quantum(0, 0, 1, 1), quantum(0, 1, 2, 1)];
    assert!(&rt; is_closed(&rt, closed, &left, 4));
    Ok(())
}
