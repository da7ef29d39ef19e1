ghost use Rattle.std.specs.Prelude.{◌≡◌, ℕ, ◌↔◌, IsOk, IfOk};
ghost use Rattle.pf_weight.specs.Share.{IsBase};

use crate::fault::BaseOutOfRange;
use std::marker::Model;

/// The greatest base.
pub const LARGEST_BASE: u64 = 1 << 30;

/// The base h of a system: weights are counted in units of 1/h, and every period divides h.
#[derive(Clone, Copy, Debug, PartialEq, Eq)]
pub struct Base {
    units: u64,
}

impl Model for Base {
    ghost Value = { ℕ };

    ghost view = { λ b. b.units };

    ghost invariant = { λ b. IsBase b.units };

    ghost inverse = { λ n. record { units = n } };
}

impl Base {
    /// The base h, 1 to 2^30.
    ///
    /// # Errors
    ///
    /// `BaseOutOfRange` where h is not 1 to 2^30.
    pub fn new(h: u64) -> Result<Self, BaseOutOfRange>
        ensures in_range { IsOk result ↔ IsBase h }
        ensures value { IfOk result (λ base. base ≡ h) }
    {
        if h == 0 || h > LARGEST_BASE {
            return Err(BaseOutOfRange);
        }
        Ok(Base { units: h })
    }

    /// h, which is also the number of units of a whole processor.
    pub fn get(self) -> u64
        ensures value { result ≡ self }
        ensures base { IsBase self }
    {
        self.units
    }
}
