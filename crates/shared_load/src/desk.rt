ghost use Rattle.std.specs.Prelude.{◌≡◌, All, IfOk};
ghost use Rattle.pf_board.specs.Passes.{AreOf};
ghost use Rattle.pf_share.specs.Locked.{origin_of};

use pf_scenario::settings::Settings;
use pf_share::blank::Blank;
use pf_share::fault::OpenFault;
use std::alloc::Global;
use std::sync::Wait;

/// A desk with these settings, whose checkpoints are `every` slots apart, and so many passes and viewers.
///
/// # Errors
///
/// As `Blank::open`.
#[tactic(auto, using(crate::proofs::Opened::on_board, crate::proofs::Opened::viewed))]
pub(crate) fn open_desk<R: Wait>(
    rt: &R,
    alloc: Global,
    settings: Settings,
    every: u64,
    callers: u64,
) -> Result<Blank<&R>, OpenFault>
    ensures passes { IfOk result (λ b. AreOf b.board.id b.passes) }
    ensures boards { IfOk result (λ b. All (λ p. p.board ≡ b.board.id) b.passes) }
    ensures viewers { IfOk result (λ b. All (λ v. v.origin ≡ origin_of b.board b.book) b.viewers) }
{
    Blank::open(rt, alloc, settings, every, callers, callers)
}
