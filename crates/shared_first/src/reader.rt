ghost use Rattle.std.specs.Prelude.{◌≡◌, ◌≤◌, [], IfSome};
ghost use Rattle.pf_share.specs.Locked.{origin_of};
ghost use Rattle.shared_first.specs.Handed.{Took};

use crate::turns::TURNS;
use pf_share::calls::DeskPass;
use pf_share::locked::Locked;
use pf_share::naming::Naming;
use pf_share::shared::Shared;
use pf_share::viewer::Viewer;
use std::sync::Wait;
use std::thread::yield_now;

/// A reader's pass and viewer, and two numbers of entries: those that it found when it last looked, and those that it then
/// read.
#[derive(Drop)]
pub(crate) struct Followed {
    pub pass: DeskPass,
    pub viewer: Viewer,
    pub found: u64,
    pub read: u64,
}

/// Finds how many entries there are, and then reads. The answer has both numbers of entries. None where memory is refused.
fn look_and_read<N: Naming, H: Wait + Drop>(
    rt: &impl Wait,
    shared: &Shared<N, Locked<N, H>>,
    pass: &mut DeskPass,
    viewer: &mut Viewer,
) -> Option<(u64, u64)>
    requires pass { Took N.board.id [] pass.old }
    requires viewer { viewer.old.origin ≡ origin_of N.board N.book }
    ensures pass { Took N.board.id [] pass.new }
    ensures viewer { viewer.new.origin ≡ origin_of N.board N.book }
    ensures read { IfSome result (λ r. r.0 ≤ r.1) }
{
    let found = shared.look(pass);
    let Ok(()) = shared.tell(rt, pass, viewer) else {
        return None;
    };
    let Ok(snapshot) = shared.read(viewer) else {
        return None;
    };
    Some((found, snapshot.version()))
}

/// Reads until it read so many entries. None where memory is refused.
pub(crate) fn follow<N: Naming, H: Wait + Drop>(
    rt: &impl Wait,
    shared: &Shared<N, Locked<N, H>>,
    mut pass: DeskPass,
    mut viewer: Viewer,
    wanted: u64,
) -> Option<Followed>
    requires pass { Took N.board.id [] pass }
    requires viewer { viewer.origin ≡ origin_of N.board N.book }
    ensures pass { IfSome result (λ f. Took N.board.id [] f.pass) }
    ensures read { IfSome result (λ f. f.found ≤ f.read) }
{
    let mut found = 0;
    let mut read = 0;
    for _ in 0..TURNS {
        if read >= wanted {
            break;
        }
        yield_now();
        (found, read) = look_and_read(rt, shared, &mut pass, &mut viewer)?;
    }
    Some(Followed {
        pass,
        viewer,
        found,
        read,
    })
}
