ghost use Rattle.std.specs.Prelude.{◌≡◌};
ghost use Rattle.pf_script_results.specs.declared.stop.Stop.TheVariants as stop;

use std::alloc::AllocError;

/// Why records were not counted.
#[derive(Clone, Copy)]
pub(crate) enum Stop {
    /// The history is not that of the script.
    Foreign,
    /// Memory was refused.
    NoMemory,
}

impl From<AllocError> for Stop {
    ghost from_gives = { λ _ s. s ≡ stop.NoMemory };

    fn from(_error: AllocError) -> Self {
        Stop::NoMemory
    }
}
