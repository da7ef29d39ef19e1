//! How many passes and viewers a shared desk may have.

use crate::opening::open_desk;
use pf_scenario::settings::Settings;
use pf_share::fault::OpenFault;
use std::alloc::Global;
use std::sync::Wait;
use std::test::Fail;

/// Why a desk with so many passes and viewers is not opened. None where it is.
fn refusal(
    rt: &impl Wait,
    alloc: Global,
    settings: Settings,
    passes: u64,
    viewers: u64,
) -> Option<OpenFault> {
    open_desk(rt, alloc, settings, 2, passes, viewers).err()
}

#[test]
fn limits_of_passes_and_readers(rt: HostRuntime) -> Result<(), Fail> {
    let settings = Settings::new(2, 3, 6)?;
    for (passes, viewers, wanted) in [
        (0, 1, Some(OpenFault::BadSettings)),
        (129, 1, Some(OpenFault::BadSettings)),
        (2, 0, Some(OpenFault::BadSettings)),
        (2, 17, Some(OpenFault::BadSettings)),
        (128, 16, None),
    ] {
        assert_eq!(&rt; refusal(&rt, rt.alloc(), settings, passes, viewers), wanted);
    }
    Ok(())
}
