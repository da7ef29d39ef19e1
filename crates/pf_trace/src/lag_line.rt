ghost use Rattle.std.specs.Prelude.{◌≡◌, ◌++◌, OnOk};
ghost use Rattle.pf_trace.specs.Lines.{lag_line};

use crate::form::push_filled;
use crate::title::Title;
use std::alloc::AllocError;

/// Adds the lag of a task after the first t slots, times its period.
pub(crate) fn push_lag(
    text: &mut Vec<u8>,
    title: &Title,
    task: u64,
    t: u64,
    lag: i64,
) -> Result<(), AllocError>
    ensures { OnOk result (text.new.items ≡ text.old.items ++ lag_line title.now task t lag) }
{
    let size = lag.unsigned_abs();
    if lag < 0 {
        push_filled(
            text,
            title,
            b",\n{\"args\":{\"lag\":-#},\"name\":\"lag of $\",\"ph\":\"C\",\"pid\":2,\"ts\":@}",
            &[size, task, t],
        )
    } else {
        push_filled(
            text,
            title,
            b",\n{\"args\":{\"lag\":#},\"name\":\"lag of $\",\"ph\":\"C\",\"pid\":2,\"ts\":@}",
            &[size, task, t],
        )
    }
}
