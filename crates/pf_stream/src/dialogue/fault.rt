ghost use Rattle.std.specs.Prelude.{◌≡◌};
ghost use Rattle.pf_stream.specs.declared.dialogue.fault.SitFault.TheVariants as fault;

use crate::dialogue::answers::{Stopped, Unkept};
use crate::dialogue::dialogue::{Deaf, Mute};
use std::alloc::AllocError;

/// Why a sitting did not come to its end.
#[derive(Clone, Copy)]
pub enum SitFault {
    /// Nothing more could be heard.
    Deaf,
    /// Answers could not be told.
    Mute,
    /// Memory was refused, and no further line could be answered.
    NoMemory,
    /// What was answered could not be kept, so it was not told.
    Unkept,
}

impl From<Deaf> for SitFault {
    ghost from_gives = { λ _ f. f ≡ fault.Deaf };

    fn from(_deaf: Deaf) -> Self {
        SitFault::Deaf
    }
}

impl From<Mute> for SitFault {
    ghost from_gives = { λ _ f. f ≡ fault.Mute };

    fn from(_mute: Mute) -> Self {
        SitFault::Mute
    }
}

impl From<Stopped> for SitFault {
    ghost from_gives = { λ _ f. f ≡ fault.NoMemory };

    fn from(_stopped: Stopped) -> Self {
        SitFault::NoMemory
    }
}

impl From<Unkept> for SitFault {
    ghost from_gives = { λ _ f. f ≡ fault.Unkept };

    fn from(_unkept: Unkept) -> Self {
        SitFault::Unkept
    }
}

impl From<AllocError> for SitFault {
    ghost from_gives = { λ _ f. f ≡ fault.NoMemory };

    fn from(_error: AllocError) -> Self {
        SitFault::NoMemory
    }
}
