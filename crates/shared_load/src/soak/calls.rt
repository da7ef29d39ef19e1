//! Calls of a shared desk, whose passes and viewers stay its own whatever is answered.
ghost use Rattle.std.specs.Prelude.{◌≡◌};
ghost use Rattle.pf_share.specs.Locked.{origin_of};

use pf_board::take::Take;
use pf_scenario::change::Change;
use pf_share::calls::DeskPass;
use pf_share::locked::Locked;
use pf_share::naming::Naming;
use pf_share::shared::Shared;
use pf_share::step_refusal::StepRefusal;
use pf_share::viewer::Viewer;
use std::alloc::AllocError;
use std::sync::Wait;

/// Makes a change. The answer is the number of entries.
pub(crate) fn edit<N: Naming, H: Wait + Drop>(
    rt: &impl Wait,
    shared: &Shared<N, Locked<N, H>>,
    pass: &mut DeskPass,
    change: Change,
    strict: bool,
) -> Result<u64, AllocError>
    requires { pass.old.board ≡ N.board.id }
    ensures { pass.new.board ≡ N.board.id }
{
    match shared.edit(rt, pass, change, strict) {
        Ok(done) => Ok(done.front),
        Err(error) => Err(error),
    }
}

/// Takes the next slot. The answer is the number of entries.
pub(crate) fn step<N: Naming, H: Wait + Drop>(
    rt: &impl Wait,
    shared: &Shared<N, Locked<N, H>>,
    pass: &mut DeskPass,
) -> Result<u64, StepRefusal>
    requires { pass.old.board ≡ N.board.id }
    ensures { pass.new.board ≡ N.board.id }
{
    match shared.step(rt, pass) {
        Ok(done) => Ok(done.front),
        Err(refusal) => Err(refusal),
    }
}

/// Takes the quantum of a processor.
pub(crate) fn take<N: Naming, L: Drop>(
    shared: &Shared<N, L>,
    pass: &mut DeskPass,
    processor: u32,
) -> Take
    requires { pass.old.board ≡ N.board.id }
    ensures { pass.new.board ≡ N.board.id }
{
    shared.take(pass, processor)
}

/// Reads the snapshot that is shown: its number of entries and its now. None where there is no memory.
pub(crate) fn read<N: Naming, L: Drop>(
    shared: &Shared<N, L>,
    viewer: &mut Viewer,
) -> Option<(u64, u64)>
    requires { viewer.old.origin ≡ origin_of N.board N.book }
    ensures { viewer.new.origin ≡ origin_of N.board N.book }
{
    let Ok(snapshot) = shared.read(viewer) else {
        return None;
    };
    Some((snapshot.version(), snapshot.now()))
}

/// The same, once the viewer was told what the pass has seen.
pub(crate) fn read_told<N: Naming, H: Wait + Drop>(
    rt: &impl Wait,
    shared: &Shared<N, Locked<N, H>>,
    pass: &mut DeskPass,
    viewer: &mut Viewer,
) -> Option<(u64, u64)>
    requires pass { pass.old.board ≡ N.board.id }
    requires viewer { viewer.old.origin ≡ origin_of N.board N.book }
    ensures pass { pass.new.board ≡ N.board.id }
    ensures viewer { viewer.new.origin ≡ origin_of N.board N.book }
{
    let Ok(()) = shared.tell(rt, pass, viewer) else {
        return None;
    };
    read(shared, viewer)
}
