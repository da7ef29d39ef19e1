ghost use Rattle.std.specs.Prelude.{◌≡◌};
ghost use Rattle.pf_c_api.specs.Fitting.{overload_told};
ghost use Rattle.pf_c_api.specs.Told.{slot_or_never};

use crate::raw_miss::NEVER;
use pf_tally::fit::Fit;

/// Whether the loads of a run were within the processors in use, as C gets it.
#[repr(C)]
#[derive(Clone, Copy)]
pub struct RawFit {
    /// The first slot whose load was above the units of the processors in use, or `NEVER`.
    pub first: u64,
    /// By how many units of 1/h the loads were above them, in all slots together: the upper 64 bits.
    pub overload_high: u64,
    /// The lower 64 bits.
    pub overload_low: u64,
}

/// A fit in its form for C.
pub fn raw_fit(fit: Fit) -> RawFit
    ensures first { result.first ≡ slot_or_never fit.first }
    ensures overload { overload_told result ≡ fit.overload }
{
    RawFit {
        first: fit.first.unwrap_or(NEVER),
        overload_high: (fit.overload / (1 << 64)) as u64,
        overload_low: (fit.overload % (1 << 64)) as u64,
    }
}
