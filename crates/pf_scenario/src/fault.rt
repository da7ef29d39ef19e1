ghost use Rattle.std.specs.Prelude.{◌≡◌};
ghost use Rattle.pf_scenario.specs.Refusals.{edit_fault_code, edit_fault_name};

use pf_weight::fault::WeightFault;
use std::error::Error;
use std::fmt;

/// Settings with a number out of its limits: processors 1 to 64, base 1 to 2^30, cap 1 to 2^44.
#[derive(Clone, Copy, Debug, PartialEq, Eq)]
pub struct BadSettings;

impl fmt::Display for BadSettings {
    fn fmt<W: fmt::Write>(&self, f: &mut fmt::Formatter<W>) -> fmt::Result {
        f.write_str("the settings are out of their limits")
    }
}

impl Error for BadSettings {}

/// Why a change is refused, in the order in which the tests are made.
#[derive(Clone, Copy, Debug, PartialEq, Eq)]
pub enum EditFault {
    /// An alter or a strike of a number that is not held.
    EventNotFound,
    /// The slot is not below the horizon.
    SlotOutOfRange,
    /// The task is not 1 to 4,095.
    TaskOutOfRange,
    /// A join with early above 2^20.
    EarlyOutOfRange,
    /// A delay by less than 1 or more than 2^20 slots.
    DelayOutOfRange,
    /// A limit whose count is not 1 to the number of processors.
    CountOutOfRange,
    /// A join whose cost and period are no weight.
    BadWeight(WeightFault),
    /// Another event joins the task.
    JoinTwice,
    /// Another event leaves the task.
    LeaveTwice,
    /// 65,535 events are held.
    TooManyEvents,
    /// The number 1,048,575 was given.
    NumbersSpent,
}

impl EditFault {
    /// Its number in the table of refusals, 10 to 19 or 24.
    pub fn code(self) -> u64
        ensures { result ≡ edit_fault_code self }
    {
        match self {
            EditFault::EventNotFound => 10,
            EditFault::SlotOutOfRange => 11,
            EditFault::TaskOutOfRange => 12,
            EditFault::EarlyOutOfRange => 13,
            EditFault::DelayOutOfRange => 14,
            EditFault::CountOutOfRange => 24,
            EditFault::BadWeight(_) => 15,
            EditFault::JoinTwice => 16,
            EditFault::LeaveTwice => 17,
            EditFault::TooManyEvents => 18,
            EditFault::NumbersSpent => 19,
        }
    }

    /// Its name in the table of refusals.
    pub fn name(self) -> &'static str
        ensures { result.now ≡ edit_fault_name self }
    {
        match self {
            EditFault::EventNotFound => "EventNotFound",
            EditFault::SlotOutOfRange => "SlotOutOfRange",
            EditFault::TaskOutOfRange => "TaskOutOfRange",
            EditFault::EarlyOutOfRange => "EarlyOutOfRange",
            EditFault::DelayOutOfRange => "DelayOutOfRange",
            EditFault::CountOutOfRange => "CountOutOfRange",
            EditFault::BadWeight(_) => "BadWeight",
            EditFault::JoinTwice => "JoinTwice",
            EditFault::LeaveTwice => "LeaveTwice",
            EditFault::TooManyEvents => "TooManyEvents",
            EditFault::NumbersSpent => "NumbersSpent",
        }
    }
}

impl fmt::Display for EditFault {
    fn fmt<W: fmt::Write>(&self, f: &mut fmt::Formatter<W>) -> fmt::Result {
        f.write_str(match self {
            EditFault::EventNotFound => "no event has this number",
            EditFault::SlotOutOfRange => "the slot is not below the horizon",
            EditFault::TaskOutOfRange => "the task is not 1 to 4095",
            EditFault::EarlyOutOfRange => "early is above 1048576",
            EditFault::DelayOutOfRange => "the delay is not 1 to 1048576",
            EditFault::CountOutOfRange => "the count is not 1 to the number of processors",
            EditFault::BadWeight(_) => "the cost and the period are no weight",
            EditFault::JoinTwice => "another event joins the task",
            EditFault::LeaveTwice => "another event leaves the task",
            EditFault::TooManyEvents => "65535 events are held",
            EditFault::NumbersSpent => "all event numbers are spent",
        })
    }
}

impl Error for EditFault {}
