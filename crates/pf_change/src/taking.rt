ghost use Rattle.std.specs.Prelude.{◌≡◌, IfOk, OnOk};
ghost use Rattle.pf_replies.specs.Course.{course_behind, seen_at};
ghost use Rattle.pf_script_desk.specs.Asked.{commands_in};
ghost use Rattle.pf_change.specs.Change.{course_to_be};

use pf_desk::snapshot::Snapshot;
use pf_script::record::LineTold;
use pf_script_desk::carrying_desk::CarryingDesk;
use std::alloc::AllocError;

/// Carries lines out on a desk, and gives what the desk then shows.
///
/// # Errors
///
/// Where memory is refused.
pub(crate) fn show_behind(
    desk: &mut CarryingDesk,
    lines: &[LineTold],
) -> Result<Snapshot, AllocError>
    ensures desk { OnOk result (course_to_be desk.new ≡ course_behind (course_to_be desk.old) (commands_in lines.now)) }
    ensures shown { IfOk result (λ seen. seen ≡ seen_at (course_behind (course_to_be desk.old) (commands_in lines.now))) }
{
    for line in lines {
        desk.take(line.asks)?;
    }
    desk.answer_waiting()?;
    desk.desk().snapshot()
}
