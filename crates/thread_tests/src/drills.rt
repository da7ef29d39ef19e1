//! Drills whose gates are shut, or open only where the workers meet.

use crate::gates::{GateShutTo, MeetingGate};
use pf_drill::drill::drill;
use pf_vocabulary::fault::fault::Fault;
use pf_vocabulary::fault::status::Status;

// Three tasks on two processors, and the whole answer.
const SCRIPT: &[u8] = b"settings,2,3,6,2\njoin,0,1,2,3,0\njoin,0,2,2,3,0\njoin,0,3,2,3,0\nstep,3\n";

const ANSWER: &[u8] = b"schedule\nslot,p0,p1\n0,1/1,2/1\n1,1/2,3/1\n2,2/2,3/2\n\
taken\nslot,processor,task,sub\n0,0,1,1\n0,1,2,1\n1,0,1,2\n1,1,3,1\n2,0,2,2\n2,1,3,2\n";

#[test]
fn workers_run_at_once(rt: HostRuntime) -> Result<(), Fault> {
    let answer = drill(&rt, rt.alloc(), SCRIPT, &MeetingGate::new())?;
    assert_eq!(rt; answer.text.as_slice(), ANSWER);
    assert_eq!(rt; answer.ending.status, Status::Done);
    Ok(())
}

#[test]
fn a_shut_gate_ends_the_drill(rt: HostRuntime) {
    let gate = GateShutTo { task: 3, sub: 1 };
    let fault = drill(&rt, rt.alloc(), SCRIPT, &gate).err();
    assert_eq!(rt; fault, Some(Fault::GateShut));
}
