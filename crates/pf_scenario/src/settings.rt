ghost use Rattle.std.specs.Prelude.{◌≡◌, ◌⊎◌, ◌↔◌, IsOk, IfOk};
ghost use Rattle.pf_scenario.specs.System.{System, IsSystem, IsInLimits, near_horizon, wide_horizon};

use crate::fault::BadSettings;
use pf_weight::base::Base;
use std::marker::Model;

/// The most processors.
pub const MOST_PROCESSORS: u64 = 64;

/// The greatest cap, in 1/h.
pub const LARGEST_CAP: u64 = 1 << 44;

/// The horizon of ordinary settings, in slots.
pub const NEAR_HORIZON: u64 = 1 << 20;

/// The horizon of wide settings, in slots.
pub const WIDE_HORIZON: u64 = 1 << 22;

/// What a scenario is set in: the processors, the base of its weights, the cap on the load, and the horizon.
#[derive(Clone, Copy, Debug, PartialEq, Eq)]
pub struct Settings {
    processors: u32,
    base: Base,
    cap: u64,
    horizon: u64,
}

impl Model for Settings {
    ghost use Rattle.pf_scenario.specs.System.{System, IsSystem};

    ghost Value = { System };

    ghost view = { λ s. record { processors = s.processors; base = s.base; cap = s.cap; horizon = s.horizon } };

    ghost invariant = { λ s. IsSystem (record { processors = s.processors; base = s.base; cap = s.cap; horizon = s.horizon }) };

    ghost inverse = { λ v. record { processors = v.processors; base = v.base; cap = v.cap; horizon = v.horizon } };
}

impl Settings {
    /// Settings of m processors (1 to 64), the base h (1 to 2^30), a cap in 1/h (1 to 2^44) and the horizon
    /// `NEAR_HORIZON`.
    ///
    /// # Errors
    ///
    /// `BadSettings` where one of the three is out of its limits.
    pub fn new(m: u64, h: u64, cap: u64) -> Result<Self, BadSettings>
        ensures in_limits { IsOk result ↔ IsInLimits m h cap }
        ensures value { IfOk result (λ s. s ≡ record { processors = m; base = h; cap = cap; horizon = near_horizon }) }
    {
        Settings::with_horizon(m, h, cap, NEAR_HORIZON)
    }

    /// The same with the horizon `WIDE_HORIZON`.
    ///
    /// # Errors
    ///
    /// `BadSettings` where one of the three is out of its limits.
    pub fn wide(m: u64, h: u64, cap: u64) -> Result<Self, BadSettings>
        ensures in_limits { IsOk result ↔ IsInLimits m h cap }
        ensures value { IfOk result (λ s. s ≡ record { processors = m; base = h; cap = cap; horizon = wide_horizon }) }
    {
        Settings::with_horizon(m, h, cap, WIDE_HORIZON)
    }

    /// Settings with this horizon.
    fn with_horizon(m: u64, h: u64, cap: u64, horizon: u64) -> Result<Self, BadSettings>
        requires { (horizon ≡ near_horizon) ⊎ (horizon ≡ wide_horizon) }
        ensures in_limits { IsOk result ↔ IsInLimits m h cap }
        ensures value { IfOk result (λ s. s ≡ record { processors = m; base = h; cap = cap; horizon = horizon }) }
    {
        let Ok(base) = Base::new(h) else {
            return Err(BadSettings);
        };
        if m == 0 || m > MOST_PROCESSORS || cap == 0 || cap > LARGEST_CAP {
            return Err(BadSettings);
        }
        Ok(Settings {
            processors: m as u32,
            base,
            cap,
            horizon,
        })
    }

    /// The number of processors m, 1 to 64.
    pub fn processors(self) -> u32
        ensures value { result ≡ self.processors }
        ensures settings { IsSystem self }
    {
        self.processors
    }

    /// The base h of the weights.
    pub fn base(self) -> Base
        ensures value { result ≡ self.base }
        ensures settings { IsSystem self }
    {
        self.base
    }

    /// The most load that joins may make, in 1/h.
    pub fn cap(self) -> u64
        ensures value { result ≡ self.cap }
        ensures settings { IsSystem self }
    {
        self.cap
    }

    /// The number of slots: `NEAR_HORIZON`, or `WIDE_HORIZON` in wide settings.
    pub fn horizon(self) -> u64
        ensures value { result ≡ self.horizon }
        ensures settings { IsSystem self }
    {
        self.horizon
    }
}
