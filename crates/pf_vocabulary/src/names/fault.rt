ghost use Rattle.std.specs.Prelude.{◌≡◌};
ghost use Rattle.pf_vocabulary.specs.declared.names.fault.NameFault.TheVariants as why;

use std::alloc::AllocError;

/// Why a task is given no name.
#[derive(Clone, Copy)]
pub enum NameFault {
    /// The task has a name already.
    HasName,
    /// It is the name of this task already.
    IsOf(u64),
    /// Memory was refused.
    NoMemory,
}

impl From<AllocError> for NameFault {
    ghost from_gives = { λ _ f. f ≡ why.NoMemory };

    fn from(_error: AllocError) -> Self {
        NameFault::NoMemory
    }
}
