//! Calls of a shared desk, whose passes and viewers stay its own whatever is answered.
ghost use Rattle.std.specs.Prelude.{◌≡◌};
ghost use Rattle.pf_share.specs.Locked.{origin_of};

use crate::answers;
use crate::answers::{Edited, Pair, Taken, event_in, pair_in};
use pf_board::take::Take;
use pf_scenario::change::Change;
use pf_scenario::event::Event;
use pf_share::calls::DeskPass;
use pf_share::locked::Locked;
use pf_share::naming::Naming;
use pf_share::shared::Shared;
use pf_share::step_refusal::StepRefusal;
use pf_share::unread::Unread;
use pf_share::viewer::Viewer;
use std::alloc::AllocError;
use std::sync::Wait;

/// Makes a change that is not strict. The answer is the number of the event and the number of entries.
pub(crate) fn edit<N: Naming, H: Wait + Drop>(
    rt: &impl Wait,
    shared: &Shared<N, Locked<N, H>>,
    pass: &mut DeskPass,
    change: Change,
) -> Result<Option<Edited>, AllocError>
    requires { pass.old.board ≡ N.board.id }
    ensures { pass.new.board ≡ N.board.id }
{
    match shared.edit(rt, pass, change, false) {
        Ok(done) => Ok(answers::edited(&done)),
        Err(error) => Err(error),
    }
}

/// Takes the next slot.
pub(crate) fn step<N: Naming, H: Wait + Drop>(
    rt: &impl Wait,
    shared: &Shared<N, Locked<N, H>>,
    pass: &mut DeskPass,
) -> Result<Option<Taken>, StepRefusal>
    requires { pass.old.board ≡ N.board.id }
    ensures { pass.new.board ≡ N.board.id }
{
    match shared.step(rt, pass) {
        Ok(done) => Ok(answers::stepped(&done)),
        Err(refusal) => Err(refusal),
    }
}

/// Takes the quantum of a processor.
pub(crate) fn take<N: Naming, L: Drop>(
    shared: &Shared<N, L>,
    pass: &mut DeskPass,
    processor: u32,
) -> Take
    requires { pass.old.board ≡ N.board.id }
    ensures { pass.new.board ≡ N.board.id }
{
    shared.take(pass, processor)
}

/// How many entries there are.
pub(crate) fn look<N: Naming, L: Drop>(shared: &Shared<N, L>, pass: &mut DeskPass) -> u64
    requires { pass.old.board ≡ N.board.id }
    ensures { pass.new.board ≡ N.board.id }
{
    shared.look(pass)
}

/// How many entries the history has that the viewer reads.
pub(crate) fn read<N: Naming, L: Drop>(
    shared: &Shared<N, L>,
    viewer: &mut Viewer,
) -> Result<u64, Unread>
    requires { viewer.old.origin ≡ origin_of N.board N.book }
    ensures { viewer.new.origin ≡ viewer.old.origin }
{
    match shared.read(viewer) {
        Ok(snapshot) => Ok(snapshot.version()),
        Err(unread) => Err(unread),
    }
}

/// The same, and the event of this number in what the viewer reads, where it is held.
pub(crate) fn read_event<N: Naming, L: Drop>(
    shared: &Shared<N, L>,
    viewer: &mut Viewer,
    id: u64,
) -> Result<(u64, Option<Event>), Unread>
    requires { viewer.old.origin ≡ origin_of N.board N.book }
    ensures { viewer.new.origin ≡ viewer.old.origin }
{
    match shared.read(viewer) {
        Ok(snapshot) => Ok((snapshot.version(), event_in(&snapshot, id))),
        Err(unread) => Err(unread),
    }
}

/// Who runs in a slot on the first two processors, in what the viewer reads. None where the slot is not taken.
pub(crate) fn read_pair<N: Naming, L: Drop>(
    shared: &Shared<N, L>,
    viewer: &mut Viewer,
    slot: u64,
) -> Result<Option<Pair>, Unread>
    requires { viewer.old.origin ≡ origin_of N.board N.book }
    ensures { viewer.new.origin ≡ viewer.old.origin }
{
    match shared.read(viewer) {
        Ok(snapshot) => Ok(pair_in(&snapshot, slot)),
        Err(unread) => Err(unread),
    }
}
