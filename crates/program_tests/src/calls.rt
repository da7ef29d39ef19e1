//! A run and a drill over a reader and a writer.

use pf_board::quantum::Quantum;
use pf_cli::drill::drill;
use pf_cli::format::Format;
use pf_cli::gate::Gate;
use pf_cli::run::run;
use pf_cli::run_fault::RunFault;
use pf_cli::sink::CountedWriter;
use pf_cli::source::CountedReader;
use pf_drill::worker::Worker;

// Three tasks on two processors, and what a run of it writes as tables.
const SCRIPT: &[u8] = b"settings,2,3,6,2\njoin,0,1,2,3,0\njoin,0,2,2,3,0\njoin,0,3,2,3,0\nstep,3\n";

const TABLES: &[u8] =
    b"ready\nevent 1\nevent 2\nevent 3\nslot 0: 1/1 2/1\nslot 1: 1/2 3/1\nslot 2: 2/2 3/2\nschedule\nslot,p0,p1\n0,1/1,2/1\n1,1/2,3/1\n\
2,2/2,3/2\nlags\ntask,cost,period,received,lag\n1,2,3,2,0\n2,2,3,2,0\n3,2,3,2,0\nmisses\ntask,sub,deadline,ran\ndenials\nslot,event,code,reason\n";

/// A gate that is shut to all.
#[derive(Drop)]
struct ShutGate;

impl Gate for ShutGate {
    ghost use Rattle.std.specs.Prelude.{⊤};

    ghost lets_in = { λ _ _ _. ⊥ };

    ghost shuts_out = { λ _ _ _. ⊤ };

    fn arrive(&self, _worker: &Worker, _quantum: &Quantum) -> bool {
        false
    }
}

#[test]
fn a_run_writes_what_its_script_means(rt: HostRuntime) {
    let mut text = Vec::new(rt.alloc());
    let ran = run(
        rt.alloc(),
        &mut CountedReader::new(SCRIPT),
        &mut CountedWriter::new(&mut text),
        Format::Tables,
    );
    assert_eq!(rt; ran, Ok(()));
    assert_eq!(rt; text.as_slice(), TABLES);
}

#[test]
fn an_empty_script_is_a_bad_line(rt: HostRuntime) {
    let mut text = Vec::new(rt.alloc());
    let ran = run(
        rt.alloc(),
        &mut CountedReader::new(b"".as_slice()),
        &mut CountedWriter::new(&mut text),
        Format::Tables,
    );
    assert_eq!(rt; ran, Err(RunFault::BadLine { number: 1 }));
    assert!(rt; text.is_empty());
}

#[test]
fn a_shut_gate_is_told(rt: HostRuntime) {
    let mut text = Vec::new(rt.alloc());
    let drilled = drill(
        &rt,
        rt.alloc(),
        &mut CountedReader::new(SCRIPT),
        &mut CountedWriter::new(&mut text),
        &ShutGate,
    );
    assert_eq!(rt; drilled, Err(RunFault::GateShut));
    assert!(rt; text.is_empty());
}
