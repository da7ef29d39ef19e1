//! The texts of faults, which no clause says.

use pf_desk::fault::OpenFault;
use std::process::Abort;

/// Fails where the text of the fault is another one.
fn tells(rt: &(impl Abort + AllocGlobal), fault: OpenFault, wanted: &str) {
    let said = format!(in rt.alloc(); "{fault}").expect(rt, "memory is ample");
    assert_eq!(rt; said.as_str(), wanted);
}

#[test]
fn of_opening(rt: HostRuntime) {
    let limits = "the checkpoint distance is not 1 to 4096";
    tells(&rt, OpenFault::BadSettings, limits);
    tells(&rt, OpenFault::NoMemory, "memory was refused");
}
