ghost use Rattle.std.specs.Prelude.{◌≡◌};
ghost use Rattle.pf_diff.specs.Changes.{same_finding};

use pf_admit::denial::Denial;

/// What is found at a key of a table.
#[derive(Clone, Copy)]
pub enum Finding {
    /// A task's lag, times its period.
    Lag(i64),
    /// The slot in which a missed subtask ran.
    Ran(u64),
    /// A missed subtask did not run.
    Never,
    /// Why an event is denied.
    Denied(Denial),
}

/// Whether nothing is found twice, or the same.
pub fn is_same(before: Option<Finding>, after: Option<Finding>) -> bool
    ensures { result ≡ same_finding before after }
{
    match (before, after) {
        (None, None) | (Some(Finding::Never), Some(Finding::Never)) => true,
        (Some(Finding::Lag(before)), Some(Finding::Lag(after))) => before == after,
        (Some(Finding::Ran(before)), Some(Finding::Ran(after))) => before == after,
        (Some(Finding::Denied(before)), Some(Finding::Denied(after))) => {
            before.code() == after.code()
        }
        _ => false,
    }
}
