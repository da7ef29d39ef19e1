//! The passes of a desk, and its end.
ghost use Rattle.std.specs.Prelude.{◌≡◌, All, IfSome};
ghost use Rattle.pf_board.specs.Passes.{AreOf};
ghost use Rattle.pf_share.specs.Locked.{origin_of};

use pf_share::calls::DeskPass;
use pf_share::closed::Closed;
use pf_share::naming::Naming;
use pf_share::opened::Opened;
use pf_share::viewer::Viewer;
use std::sync::Wait;

/// The last pass. The others leave its room.
#[tactic(auto, using(crate::proofs::Boarded::front_of, crate::proofs::Boarded::last_of))]
pub(crate) fn pop<N: Naming>(passes: &mut Vec<DeskPass>) -> Option<DeskPass>
    requires { AreOf N.board.id passes.old.items }
    ensures rest { AreOf N.board.id passes.new.items }
    ensures board { IfSome result (λ p. p.board ≡ N.board.id) }
{
    passes.pop()
}

/// The last two passes, in their order.
pub(crate) fn pop_two<N: Naming>(passes: &mut Vec<DeskPass>) -> Option<(DeskPass, DeskPass)>
    requires { AreOf N.board.id passes.old.items }
    ensures rest { AreOf N.board.id passes.new.items }
    ensures board { IfSome result (λ r. (r.0.board ≡ N.board.id) × (r.1.board ≡ N.board.id)) }
{
    let second = pop::<N>(passes)?;
    let first = pop::<N>(passes)?;
    Some((first, second))
}

/// Puts a pass back. Whether there was memory.
pub(crate) fn put<N: Naming>(passes: &mut Vec<DeskPass>, pass: DeskPass) -> bool
    requires passes { AreOf N.board.id passes.old.items }
    requires board { pass.board ≡ N.board.id }
    ensures { AreOf N.board.id passes.new.items }
{
    passes.push(pass).is_ok()
}

/// Puts two passes back. Whether there was memory.
pub(crate) fn put_two<N: Naming>(
    passes: &mut Vec<DeskPass>,
    first: DeskPass,
    second: DeskPass,
) -> bool
    requires passes { AreOf N.board.id passes.old.items }
    requires board { (first.board ≡ N.board.id) × (second.board ≡ N.board.id) }
    ensures { AreOf N.board.id passes.new.items }
{
    put::<N>(passes, first) && put::<N>(passes, second)
}

/// The last viewer.
pub(crate) fn pop_viewer<N: Naming>(viewers: &mut Vec<Viewer>) -> Option<Viewer>
    requires { All (λ v. v.origin ≡ origin_of N.board N.book) viewers.old.items }
    ensures { IfSome result (λ v. v.origin ≡ origin_of N.board N.book) }
{
    viewers.pop()
}

/// The last two passes of a desk, and its last viewer.
pub(crate) fn pop_seats<N: Naming, H: Wait + Drop>(
    opened: &mut Opened<N, H>,
) -> Option<((DeskPass, DeskPass), Viewer)>
    requires passes { AreOf N.board.id opened.old.passes.items }
    requires viewers { All (λ v. v.origin ≡ origin_of N.board N.book) opened.old.viewers.items }
    ensures rest { AreOf N.board.id opened.new.passes.items }
    ensures board { IfSome result (λ r. (r.0.0.board ≡ N.board.id) × (r.0.1.board ≡ N.board.id)) }
    ensures viewer { IfSome result (λ r. r.1.origin ≡ origin_of N.board N.book) }
{
    let viewer = pop_viewer::<N>(&mut opened.viewers)?;
    let passes = pop_two::<N>(&mut opened.passes)?;
    Some((passes, viewer))
}

/// Lets a desk go, with all its parts. Who may have to drop one calls this.
pub(crate) fn let_go<N: Naming, H: Wait + Drop>(_opened: Opened<N, H>) {}

/// What is left of the desk, where memory is ample.
pub(crate) fn close<N: Naming, H: Wait + Drop>(
    rt: &impl Wait,
    opened: Opened<N, H>,
) -> Option<Closed>
    requires { AreOf N.board.id opened.passes.items }
{
    let Opened {
        shared,
        passes,
        viewers,
    } = opened;
    match shared.close(rt, passes, viewers) {
        Ok(closed) => Some(closed),
        Err(opened) => {
            let_go(opened);
            None
        }
    }
}
