ghost use Rattle.std.specs.Prelude.{◌≡◌, ◌≤◌, [], All, IfSome};
ghost use Rattle.pf_desk.specs.Desk.{IsDesk};
ghost use Rattle.pf_share.specs.Locked.{origin_of};
ghost use Rattle.shared_first.specs.Handed.{AreHandedOut, Took};

use crate::planner::insert;
use crate::reader::Followed;
use crate::seats::seat;
use crate::team::{Left, work_at_once};
use pf_board::quantum::Quantum;
use pf_share::blank::Blank;
use pf_share::closed::Closed;
use pf_share::locked::Locked;
use pf_share::naming::Naming;
use pf_share::opened::Opened;
use pf_share::shared::Shared;
use std::sync::Wait;
use std::thread::Threads;

/// What is left of the work: the desk with the quanta that nobody took, the quanta that each dispatcher handed out, and two
/// numbers of entries: those that the reader found when it last looked, and those that it then read.
#[derive(Drop)]
pub struct Work {
    pub closed: Closed,
    pub first: Vec<Quantum>,
    pub second: Vec<Quantum>,
    pub found: u64,
    pub read: u64,
}

/// Ends the desk. None where memory is refused.
fn finish<N: Naming, H: Wait + Drop>(
    rt: &(impl Wait + AllocGlobal),
    shared: Shared<N, Locked<N, H>>,
    left: Left,
) -> Option<Work>
    requires five { N.board.passes ≡ 5 }
    requires planned { Took N.board.id [] left.planners.0 × Took N.board.id [] left.planners.1 }
    requires dispatched { Took N.board.id left.first.1.items left.first.0 × Took N.board.id left.second.1.items left.second.0 }
    requires followed { Took N.board.id [] left.followed.pass × (left.followed.found ≤ left.followed.read) }
    ensures desk { IfSome result (λ w. IsDesk w.closed.desk) }
    ensures handed_out { IfSome result (λ w. AreHandedOut w.closed.desk.history w.closed.left.items w.first.items w.second.items) }
    ensures read { IfSome result (λ w. w.found ≤ w.read) }
{
    let Left {
        planners,
        first: (first, firsts),
        second: (second, seconds),
        followed,
    } = left;
    let Followed {
        pass,
        viewer,
        found,
        read,
    } = followed;
    let Ok(passes) = vec![in rt.alloc(); first, second, planners.0, planners.1, pass] else {
        return None;
    };
    let Ok(viewers) = vec![in rt.alloc(); viewer] else {
        return None;
    };
    let Ok(closed) = shared.close(rt, passes, viewers) else {
        return None;
    };
    Some(Work {
        closed,
        first: firsts,
        second: seconds,
        found,
        read,
    })
}

/// Three tasks of two thirds join a desk of two processors with five passes and one viewer, and then planners, dispatchers and
/// a reader use it at once. None where memory is refused.
pub fn run<N: Naming + Send + Sync, H: Wait + Drop + Send, R: Threads + Wait + AllocGlobal + Sync>(
    rt: &R,
    blank: Blank<H>,
) -> Option<Work>
    requires name { (blank.board ≡ N.board) × (blank.book ≡ N.book) }
    requires five { N.board.passes ≡ 5 }
    requires passes { All (Took N.board.id []) blank.passes }
    requires viewers { All (λ v. v.origin ≡ origin_of N.board N.book) blank.viewers }
    ensures desk { IfSome result (λ w. IsDesk w.closed.desk) }
    ensures handed_out { IfSome result (λ w. AreHandedOut w.closed.desk.history w.closed.left.items w.first.items w.second.items) }
    ensures read { IfSome result (λ w. w.found ≤ w.read) }
{
    let Opened {
        shared,
        passes,
        viewers,
    } = blank.start::<N>();
    let mut seats = seat::<N>(passes, viewers)?;
    seats.reader = insert(rt, &shared, seats.reader, 3);
    let left = work_at_once(rt, &shared, seats)?;
    finish(rt, shared, left)
}
