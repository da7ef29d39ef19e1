ghost use Rattle.std.specs.Prelude.{◌≡◌};
ghost use Rattle.pf_script.specs.Grammar.{horizon_of, has_limits};

use pf_scenario::settings::{NEAR_HORIZON, WIDE_HORIZON};

/// Which records a script may have, and how far it may step.
#[derive(Clone, Copy)]
pub enum Version {
    /// A script without a heading.
    First,
    /// A script that begins with the heading.
    Second,
}

impl Version {
    /// The number of slots: that of ordinary settings, or in the second version that of wide ones.
    pub fn horizon(self) -> u64
        ensures { result ≡ horizon_of self }
    {
        match self {
            Version::First => NEAR_HORIZON,
            Version::Second => WIDE_HORIZON,
        }
    }

    /// Whether a script may limit the processors in use.
    pub fn has_limits(self) -> bool
        ensures { result ≡ has_limits self }
    {
        matches!(self, Version::Second)
    }
}
