//! How many slots an edit counts.

use crate::plan::{is_stepped, join, open};
use pf_desk::desk::Desk;
use pf_desk::reply::Reply;
use pf_order::meter::Meter;
use pf_scenario::settings::Settings;
use std::alloc::Global;
use std::process::Abort;

/// A desk of one processor with no events, after 100 slots.
fn hundred_slots(rt: &impl Abort, alloc: Global) -> Desk {
    let settings = Settings::new(1, 1, 1).expect(rt, "settings");
    let mut desk = open(alloc, settings).expect(rt, "it is opened");
    for _ in 0..100 {
        assert!(rt; is_stepped(&mut desk));
    }
    desk
}

/// How many slots the first join counts, where it happens in this slot.
fn counted(rt: &impl Abort, desk: &mut Desk, slot: u64) -> u64 {
    let mut meter = Meter::new();
    let reply = desk.apply(&mut meter, 0, join(slot, 1));
    let reply = reply.expect(rt, "memory is ample");
    assert!(rt; matches!(reply, Reply::Edited { id: 1 }));
    meter.slots()
}

/// In the last slot that was taken it counts that slot, and those from the checkpoint before it on; in the next slot it counts
/// none.
#[test]
fn what_an_edit_costs(rt: HostRuntime) {
    for (slot, most) in [(99, 3), (100, 0)] {
        let mut desk = hundred_slots(&rt, rt.alloc());
        assert!(rt; counted(&rt, &mut desk, slot) <= most, "in slot {slot}");
    }
}
