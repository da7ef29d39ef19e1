ghost use Rattle.std.specs.Prelude.{◌≡◌};
ghost use Rattle.pf_session.specs.declared.stop.Stop.TheVariants as stop;

use std::alloc::AllocError;

/// Why a line was not answered.
#[derive(Clone, Copy)]
pub enum Stop {
    /// Out of memory: nothing has changed, and the session goes on.
    NoMemory,
    /// Out of memory in mid-change, after the first of several steps, or for the label of an event that was inserted: the session
    /// takes no more lines.
    Lost,
}

impl From<AllocError> for Stop {
    ghost from_gives = { λ _ s. s ≡ stop.NoMemory };

    fn from(_error: AllocError) -> Self {
        Stop::NoMemory
    }
}
