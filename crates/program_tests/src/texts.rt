//! The texts of faults, which no clause says, beside their numbers.

use pf_cli::run_fault::RunFault;
use pf_vocabulary::fault::range_fault::RangeFault;

#[test]
fn of_runs_not_carried_out(rt: HostRuntime) {
    for (fault, code, wanted) in [
        (RunFault::NoViewer, 34, "no place for a reader"),
        (RunFault::Unread, 37, "no place for a reader"),
        (RunFault::BadLine { number: 3 }, 50, "bad record 3"),
        (RunFault::ReadFault, 51, "cannot read the script"),
        (RunFault::WriteFault, 52, "cannot write the output"),
        (
            RunFault::ScriptTooLong,
            53,
            "the script is longer than 16777216 bytes",
        ),
        (RunFault::GateShut, 54, "a gate stayed shut"),
        (
            RunFault::BadRange(RangeFault::TooLong),
            55,
            "range too long",
        ),
        (RunFault::NoMemory, 90, "out of memory"),
    ] {
        let said = format!(in rt.alloc(); "{fault}").expect(&rt, "memory is ample");
        assert_eq!(rt; said.as_str(), wanted);
        assert_eq!(rt; fault.code(), code);
    }
}
