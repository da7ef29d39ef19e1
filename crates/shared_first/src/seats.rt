ghost use Rattle.std.specs.Prelude.{◌≡◌, [], All, IfSome};
ghost use Rattle.pf_share.specs.Locked.{origin_of};
ghost use Rattle.shared_first.specs.Handed.{Took};

use pf_share::calls::DeskPass;
use pf_share::naming::Naming;
use pf_share::viewer::Viewer;

/// The passes of two planners, of two dispatchers and of a reader, and the reader's viewer.
#[derive(Drop)]
pub(crate) struct Seats {
    pub planners: (DeskPass, DeskPass),
    pub dispatchers: (DeskPass, DeskPass),
    pub reader: DeskPass,
    pub viewer: Viewer,
}

/// The last pass.
fn pop<N: Naming>(passes: &mut Vec<DeskPass>) -> Option<DeskPass>
    requires { All (Took N.board.id []) passes.old.items }
    ensures rest { All (Took N.board.id []) passes.new.items }
    ensures pass { IfSome result (Took N.board.id []) }
{
    passes.pop()
}

/// The last two passes.
fn pop_two<N: Naming>(passes: &mut Vec<DeskPass>) -> Option<(DeskPass, DeskPass)>
    requires { All (Took N.board.id []) passes.old.items }
    ensures rest { All (Took N.board.id []) passes.new.items }
    ensures passes { IfSome result (λ r. Took N.board.id [] r.0 × Took N.board.id [] r.1) }
{
    let first = pop::<N>(passes)?;
    let second = pop::<N>(passes)?;
    Some((first, second))
}

/// The last viewer.
fn pop_viewer<N: Naming>(viewers: &mut Vec<Viewer>) -> Option<Viewer>
    requires { All (λ v. v.origin ≡ origin_of N.board N.book) viewers.old.items }
    ensures { IfSome result (λ v. v.origin ≡ origin_of N.board N.book) }
{
    viewers.pop()
}

/// Seats for all, where there are five passes and a viewer.
pub(crate) fn seat<N: Naming>(mut passes: Vec<DeskPass>, mut viewers: Vec<Viewer>) -> Option<Seats>
    requires passes { All (Took N.board.id []) passes.items }
    requires viewers { All (λ v. v.origin ≡ origin_of N.board N.book) viewers.items }
    ensures planners { IfSome result (λ s. Took N.board.id [] s.planners.0 × Took N.board.id [] s.planners.1) }
    ensures dispatchers { IfSome result (λ s. Took N.board.id [] s.dispatchers.0 × Took N.board.id [] s.dispatchers.1) }
    ensures reader { IfSome result (λ s. Took N.board.id [] s.reader × (s.viewer.origin ≡ origin_of N.board N.book)) }
{
    let planners = pop_two::<N>(&mut passes)?;
    let dispatchers = pop_two::<N>(&mut passes)?;
    let reader = pop::<N>(&mut passes)?;
    let viewer = pop_viewer::<N>(&mut viewers)?;
    Some(Seats {
        planners,
        dispatchers,
        reader,
        viewer,
    })
}
