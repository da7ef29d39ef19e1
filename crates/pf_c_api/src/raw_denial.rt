use crate::for_c::ForC;
use pf_run::denied::Denied;

/// An event that was denied, as C gets it.
#[repr(C)]
#[derive(Clone, Copy)]
pub struct RawDenial {
    /// Its slot.
    pub slot: u64,
    /// Its number.
    pub event: u64,
    /// Why, by its number in the table of refusals, 20 to 23.
    pub reason: u64,
}

impl ForC for Denied {
    ghost use Rattle.pf_c_api.specs.Told.{raw_denial};

    type Raw = RawDenial;

    ghost raw = { raw_denial };

    fn for_c(self) -> RawDenial {
        RawDenial {
            slot: self.slot,
            event: self.id,
            reason: self.denial.code(),
        }
    }
}
