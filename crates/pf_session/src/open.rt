ghost use Rattle.std.specs.Prelude.{◌≡◌, IfOk};
ghost use Rattle.pf_replies.specs.Course.{course_at};
ghost use Rattle.pf_session.specs.Held.{course_opened};

use crate::session_desk::SessionDesk;
use pf_desk::desk::Desk;
use pf_desk::fault::OpenFault;
use pf_scenario::limits::LARGEST_DISTANCE;
use pf_script::record::ScriptSettings;
use std::alloc::{AllocError, Global};

/// A desk with these settings.
pub(crate) fn open_desk(alloc: Global, opening: ScriptSettings) -> Result<SessionDesk, AllocError>
    ensures { IfOk result (λ desk. course_at desk ≡ course_opened opening) }
{
    let every = opening.every.clamp(1, LARGEST_DISTANCE);
    match Desk::open(alloc, opening.settings, every) {
        Ok(desk) => Ok(SessionDesk::new(desk)),
        Err(OpenFault::BadSettings) => unreachable!(),
        Err(OpenFault::NoMemory) => Err(AllocError),
    }
}
