//! The texts of denials and faults, which no clause says.

use pf_admit::denial::Denial;
use pf_scenario::apply_fault::ApplyFault;
use pf_scenario::fault::{BadSettings, EditFault};
use pf_timeline::fault::{NewFault, StepFault};
use pf_weight::fault::{BaseOutOfRange, WeightFault};
use std::fmt::Display;
use std::process::Abort;

/// Fails where the text of the value is another one.
fn tells<T: Display + Drop>(rt: &(impl Abort + AllocGlobal), value: T, wanted: &str) {
    let said = format!(in rt.alloc(); "{value}").expect(rt, "memory is ample");
    assert_eq!(rt; said.as_str(), wanted);
}

#[test]
fn of_refused_edits(rt: HostRuntime) {
    for (fault, wanted) in [
        (EditFault::EventNotFound, "no event has this number"),
        (
            EditFault::SlotOutOfRange,
            "the slot is not below the horizon",
        ),
        (EditFault::TaskOutOfRange, "the task is not 1 to 4095"),
        (EditFault::EarlyOutOfRange, "early is above 1048576"),
        (EditFault::DelayOutOfRange, "the delay is not 1 to 1048576"),
        (
            EditFault::CountOutOfRange,
            "the count is not 1 to the number of processors",
        ),
        (
            EditFault::BadWeight(WeightFault::ZeroCost),
            "the cost and the period are no weight",
        ),
        (EditFault::JoinTwice, "another event joins the task"),
        (EditFault::LeaveTwice, "another event leaves the task"),
        (EditFault::TooManyEvents, "65535 events are held"),
        (EditFault::NumbersSpent, "all event numbers are spent"),
    ] {
        tells(&rt, ApplyFault::Refused(fault), wanted);
    }
}

#[test]
fn of_weights_and_denials(rt: HostRuntime) {
    for (fault, wanted) in [
        (WeightFault::ZeroCost, "the cost is 0"),
        (WeightFault::CostAbovePeriod, "the cost is above the period"),
        (
            WeightFault::PeriodNotInBase,
            "the period does not divide the base",
        ),
    ] {
        tells(&rt, fault, wanted);
    }
    for (denial, wanted) in [
        (Denial::OverCapacity, "the load would be above the cap"),
        (Denial::NotInside, "the task is not inside"),
        (
            Denial::TooEarly,
            "the task's last subtask does not let it go yet",
        ),
        (
            Denial::Released,
            "the task's next subtask is released already",
        ),
    ] {
        tells(&rt, denial, wanted);
    }
}

#[test]
fn of_bases_settings_and_memory(rt: HostRuntime) {
    let (base, settings) = (
        "the base is not 1 to 1073741824",
        "the settings are out of their limits",
    );
    let (horizon, memory) = ("the slots reach to the horizon", "memory was refused");
    tells(&rt, BaseOutOfRange, base);
    tells(&rt, BadSettings, settings);
    tells(&rt, NewFault::BadSettings, settings);
    tells(&rt, StepFault::AtHorizon, horizon);
    tells(&rt, ApplyFault::NoMemory, memory);
    tells(&rt, NewFault::NoMemory, memory);
    tells(&rt, StepFault::NoMemory, memory);
}
