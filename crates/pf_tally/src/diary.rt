ghost use Rattle.std.specs.Prelude.{◌≡◌, IfOk};
ghost use Rattle.pf_tally.specs.Own.{AreDiaries};

use pf_collections::table::lists::Lists;
use pf_scenario::event::Numbered;
use std::alloc::{AllocError, Global};

/// Of each task number the task's own events, in their order: one walk over the events.
///
/// # Errors
///
/// Where memory is refused.
pub fn diaries_by_task(alloc: Global, events: &[Numbered]) -> Result<Lists<Numbered>, AllocError>
    ensures { IfOk result (λ table. AreDiaries events.now table) }
{
    let mut table = Lists::new(alloc);
    for numbered in events {
        if let Some(task) = numbered.event.task() {
            table.note(task, *numbered)?;
        }
    }
    Ok(table)
}
