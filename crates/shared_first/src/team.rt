ghost use Rattle.std.specs.Prelude.{◌≡◌, ◌≤◌, [], IfSome};
ghost use Rattle.std.specs.Thread.{IsSend, IsSync};
ghost use Rattle.pf_share.specs.Locked.{origin_of};
ghost use Rattle.shared_first.specs.Handed.{Took};

use crate::dispatcher::{Dispatched, dispatch};
use crate::planner::plan;
use crate::reader::{Followed, follow};
use crate::seats::Seats;
use pf_share::calls::DeskPass;
use pf_share::locked::Locked;
use pf_share::naming::Naming;
use pf_share::shared::Shared;
use pf_share::viewer::Viewer;
use std::sync::Wait;
use std::thread::{Threads, join};

/// Each planner takes so many slots, in a thread of its own.
fn plan_both<N: Naming + Send + Sync, H: Wait + Drop + Send, R: Threads + Wait + Sync>(
    rt: &R,
    shared: &Shared<N, Locked<N, H>>,
    first: DeskPass,
    second: DeskPass,
) -> (DeskPass, DeskPass)
    requires { Took N.board.id [] first × Took N.board.id [] second }
    ensures { Took N.board.id [] result.0 × Took N.board.id [] result.1 }
{
    join(
        rt,
        || -> DeskPass
            requires { Took N.board.id [] first }
            ensures { Took N.board.id [] result }
        { plan(rt, shared, first, 3) },
        || -> DeskPass
            requires { Took N.board.id [] second }
            ensures { Took N.board.id [] result }
        { plan(rt, shared, second, 3) },
    )
}

/// Each dispatcher hands out the quanta of a processor, in a thread of its own.
fn dispatch_both<N: Naming + Send + Sync, H: Wait + Drop + Send, R: Threads + AllocGlobal + Sync>(
    rt: &R,
    shared: &Shared<N, Locked<N, H>>,
    first: DeskPass,
    second: DeskPass,
) -> Option<(Dispatched, Dispatched)>
    requires { Took N.board.id [] first × Took N.board.id [] second }
    ensures { IfSome result (λ r. Took N.board.id r.0.1.items r.0.0 × Took N.board.id r.1.1.items r.1.0) }
{
    let (first, second) = join(
        rt,
        || -> Option<Dispatched>
            requires { Took N.board.id [] first }
            ensures { IfSome result (λ r. Took N.board.id r.1.items r.0) }
        { dispatch(rt, shared, first, 0, 6) },
        || -> Option<Dispatched>
            requires { Took N.board.id [] second }
            ensures { IfSome result (λ r. Took N.board.id r.1.items r.0) }
        { dispatch(rt, shared, second, 1, 6) },
    );
    Some((first?, second?))
}

/// The dispatchers hand out, and the reader reads until it read all entries.
fn attend<N: Naming + Send + Sync, H: Wait + Drop + Send, R: Threads + Wait + AllocGlobal + Sync>(
    rt: &R,
    shared: &Shared<N, Locked<N, H>>,
    first: DeskPass,
    second: DeskPass,
    reader: DeskPass,
    viewer: Viewer,
) -> Option<(Dispatched, Dispatched, Followed)>
    requires dispatchers { Took N.board.id [] first × Took N.board.id [] second }
    requires reader { Took N.board.id [] reader × (viewer.origin ≡ origin_of N.board N.book) }
    ensures dispatched { IfSome result (λ r. Took N.board.id r.0.1.items r.0.0 × Took N.board.id r.1.1.items r.1.0) }
    ensures followed { IfSome result (λ r. Took N.board.id [] r.2.pass × (r.2.found ≤ r.2.read)) }
{
    let (dispatched, followed) = join(
        rt,
        || -> Option<(Dispatched, Dispatched)>
            requires crosses { IsSync R.row × IsSend N.row × IsSync N.row × IsSend H.row }
            requires dispatchers { Took N.board.id [] first × Took N.board.id [] second }
            ensures { IfSome result (λ r. Took N.board.id r.0.1.items r.0.0 × Took N.board.id r.1.1.items r.1.0) }
        { dispatch_both(rt, shared, first, second) },
        || -> Option<Followed>
            requires { Took N.board.id [] reader × (viewer.origin ≡ origin_of N.board N.book) }
            ensures { IfSome result (λ f. Took N.board.id [] f.pass × (f.found ≤ f.read)) }
        { follow(rt, shared, reader, viewer, 9) },
    );
    let (first, second) = dispatched?;
    Some((first, second, followed?))
}

/// What the threads of planners, dispatchers and a reader leave.
#[derive(Drop)]
pub(crate) struct Left {
    pub planners: (DeskPass, DeskPass),
    pub first: Dispatched,
    pub second: Dispatched,
    pub followed: Followed,
}

/// All at once, each in a thread of its own.
pub(crate) fn work_at_once<
    N: Naming + Send + Sync,
    H: Wait + Drop + Send,
    R: Threads + Wait + AllocGlobal + Sync,
>(rt: &R, shared: &Shared<N, Locked<N, H>>, seats: Seats) -> Option<Left>
    requires planners { Took N.board.id [] seats.planners.0 × Took N.board.id [] seats.planners.1 }
    requires dispatchers { Took N.board.id [] seats.dispatchers.0 × Took N.board.id [] seats.dispatchers.1 }
    requires reader { Took N.board.id [] seats.reader × (seats.viewer.origin ≡ origin_of N.board N.book) }
    ensures planned { IfSome result (λ l. Took N.board.id [] l.planners.0 × Took N.board.id [] l.planners.1) }
    ensures dispatched { IfSome result (λ l. Took N.board.id l.first.1.items l.first.0 × Took N.board.id l.second.1.items l.second.0) }
    ensures followed { IfSome result (λ l. Took N.board.id [] l.followed.pass × (l.followed.found ≤ l.followed.read)) }
{
    let Seats {
        planners: (one, two),
        dispatchers: (first, second),
        reader,
        viewer,
    } = seats;
    let (planners, attended) = join(
        rt,
        || -> (DeskPass, DeskPass)
            requires crosses { IsSync R.row × IsSend N.row × IsSync N.row × IsSend H.row }
            requires planners { Took N.board.id [] one × Took N.board.id [] two }
            ensures { Took N.board.id [] result.0 × Took N.board.id [] result.1 }
        { plan_both(rt, shared, one, two) },
        || -> Option<(Dispatched, Dispatched, Followed)>
            requires crosses { IsSync R.row × IsSend N.row × IsSync N.row × IsSend H.row }
            requires dispatchers { Took N.board.id [] first × Took N.board.id [] second }
            requires reader { Took N.board.id [] reader × (viewer.origin ≡ origin_of N.board N.book) }
            ensures dispatched { IfSome result (λ r. Took N.board.id r.0.1.items r.0.0 × Took N.board.id r.1.1.items r.1.0) }
            ensures followed { IfSome result (λ r. Took N.board.id [] r.2.pass × (r.2.found ≤ r.2.read)) }
        { attend(rt, shared, first, second, reader, viewer) },
    );
    let (first, second, followed) = attended?;
    Some(Left {
        planners,
        first,
        second,
        followed,
    })
}
