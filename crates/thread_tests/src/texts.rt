//! The texts of faults, which no clause says.

use pf_share::fault::OpenFault;
use pf_share::step_refusal::StepRefusal;
use pf_share::unread::Unread;
use pf_vocabulary::fault::fault::Fault;
use std::fmt::Display;
use std::process::Abort;

/// Fails where the text of the value is another one.
fn tells<T: Display + Drop>(rt: &(impl Abort + AllocGlobal), value: T, wanted: &str) {
    let said = format!(in rt.alloc(); "{value}").expect(rt, "memory is ample");
    assert_eq!(rt; said.as_str(), wanted);
}

#[test]
fn of_shared_desks(rt: HostRuntime) {
    let limits =
        "the checkpoint distance, or the number of passes or readers, is out of its limits";
    let viewer = "there is no place for a reader";
    let pending = StepRefusal::Pending { processor: 63 };
    let untaken = "a quantum lies untaken on processor 63";
    tells(&rt, OpenFault::BadSettings, limits);
    tells(&rt, OpenFault::NoViewer, viewer);
    tells(&rt, OpenFault::NoMemory, "memory was refused");
    tells(&rt, pending, untaken);
    tells(&rt, StepRefusal::NoMemory, "memory was refused");
    tells(&rt, Unread, "no snapshot could be read");
}

#[test]
fn of_drills_not_carried_out(rt: HostRuntime) {
    for (fault, wanted) in [
        (Fault::BadRecord(3), "bad record 3"),
        (Fault::Read, "cannot read the script"),
        (Fault::Write, "cannot write the output"),
        (Fault::TooLong, "the script is longer than 16777216 bytes"),
        (Fault::GateShut, "a gate stayed shut"),
        (Fault::NoViewer, "no place for a reader"),
        (Fault::Unread, "no place for a reader"),
        (Fault::NoMemory, "out of memory"),
    ] {
        tells(&rt, fault, wanted);
    }
}
