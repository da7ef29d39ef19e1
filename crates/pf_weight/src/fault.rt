ghost use Rattle.std.specs.Prelude.{◌≡◌};
ghost use Rattle.pf_weight.specs.Refusals.{weight_fault_code, weight_fault_name};

use std::error::Error;
use std::fmt;

/// A base that is not 1 to 2^30.
#[derive(Clone, Copy, Debug, PartialEq, Eq)]
pub struct BaseOutOfRange;

impl fmt::Display for BaseOutOfRange {
    fn fmt<W: fmt::Write>(&self, f: &mut fmt::Formatter<W>) -> fmt::Result {
        f.write_str("the base is not 1 to 1073741824")
    }
}

impl Error for BaseOutOfRange {}

/// Why a cost and a period are no weight, in the order in which the tests are made.
#[derive(Clone, Copy, Debug, PartialEq, Eq)]
pub enum WeightFault {
    /// The cost is 0.
    ZeroCost,
    /// The cost is above the period.
    CostAbovePeriod,
    /// The period does not divide the base.
    PeriodNotInBase,
}

impl WeightFault {
    /// Its number in the table of refusals, 2 to 4.
    pub fn code(self) -> u64
        ensures { result ≡ weight_fault_code self }
    {
        match self {
            WeightFault::ZeroCost => 2,
            WeightFault::CostAbovePeriod => 3,
            WeightFault::PeriodNotInBase => 4,
        }
    }

    /// Its name in the table of refusals.
    pub fn name(self) -> &'static str
        ensures { result.now ≡ weight_fault_name self }
    {
        match self {
            WeightFault::ZeroCost => "ZeroCost",
            WeightFault::CostAbovePeriod => "CostAbovePeriod",
            WeightFault::PeriodNotInBase => "PeriodNotInBase",
        }
    }
}

impl fmt::Display for WeightFault {
    fn fmt<W: fmt::Write>(&self, f: &mut fmt::Formatter<W>) -> fmt::Result {
        f.write_str(match self {
            WeightFault::ZeroCost => "the cost is 0",
            WeightFault::CostAbovePeriod => "the cost is above the period",
            WeightFault::PeriodNotInBase => "the period does not divide the base",
        })
    }
}

impl Error for WeightFault {}
