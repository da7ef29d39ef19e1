ghost use Rattle.std.specs.Prelude.{◌≡◌, ◌≢◌, ◌<◌, ◌%◌, ◌↔◌, Err};
ghost use Rattle.pf_weight.specs.Share.{Share, IsShare, is_heavy};
ghost use Rattle.pf_weight.specs.Weighed.{share_or_fault};

use crate::base::Base;
use crate::fault::WeightFault;
use std::marker::Model;

/// A task's weight: `cost` quanta in each `period` slots. The fraction is kept as it was given, not reduced.
#[derive(Clone, Copy, Debug, PartialEq, Eq)]
pub struct Weight {
    cost: u64,
    period: u64,
    units: u64,
}

impl Model for Weight {
    ghost use Rattle.pf_weight.specs.Share.{Share, IsShare};

    ghost Value = { Share };

    ghost view = { λ w. record { cost = w.cost; period = w.period; units = w.units } };

    ghost invariant = { λ w. IsShare (record { cost = w.cost; period = w.period; units = w.units }) };

    ghost inverse = { λ s. record { cost = s.cost; period = s.period; units = s.units } };
}

impl Weight {
    /// The weight `cost`/`period` over the base.
    ///
    /// # Errors
    ///
    /// The first of these that is true, in the order of `WeightFault`: no cost, a cost above the period, a period that
    /// does not divide the base.
    pub fn new(base: Base, cost: u64, period: u64) -> Result<Self, WeightFault>
        ensures value { result ≡ share_or_fault base cost period }
        ensures zero_cost { (result ≡ Err WeightFault.ZeroCost) ↔ (cost ≡ 0) }
        ensures above_period { (result ≡ Err WeightFault.CostAbovePeriod) ↔ ((cost ≢ 0) × (period < cost)) }
        ensures not_in_base { result ≡ Err WeightFault.PeriodNotInBase → base % period ≢ 0 }
    {
        if cost == 0 {
            return Err(WeightFault::ZeroCost);
        }
        if cost > period {
            return Err(WeightFault::CostAbovePeriod);
        }
        let whole = base.get();
        if whole % period != 0 {
            return Err(WeightFault::PeriodNotInBase);
        }
        let units = cost * (whole / period);
        Ok(Weight {
            cost,
            period,
            units,
        })
    }

    /// The quanta that the task is to receive in each period, 1 to the period.
    pub fn cost(self) -> u64
        ensures value { result ≡ self.cost }
        ensures share { IsShare self }
    {
        self.cost
    }

    /// The slots of a period, 1 to the base.
    pub fn period(self) -> u64
        ensures value { result ≡ self.period }
        ensures share { IsShare self }
    {
        self.period
    }

    /// The part of a processor that the task takes, in units of 1/h: cost * (h / period).
    pub fn units(self) -> u64
        ensures value { result ≡ self.units }
        ensures share { IsShare self }
    {
        self.units
    }

    /// Whether the weight is at least one half.
    pub fn is_heavy(self) -> bool
        ensures value { result ≡ is_heavy self }
        ensures share { IsShare self }
    {
        2 * self.cost >= self.period
    }
}
