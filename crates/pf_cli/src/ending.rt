ghost use Rattle.std.specs.Prelude.{◌≡◌, ◌≢◌, ◌+◌, ◌-◌, ◌^◌, ◌<◌, ◌≤◌, ◌++◌, [], Err, IfOk};
ghost use Rattle.std.specs.Io.KnownBytes.{Keeps};
ghost use Rattle.pf_vocabulary.specs.declared.fault.fault.Fault.TheVariants as why;
ghost use Rattle.pf_vocabulary.specs.Fault.Faults.{number_of, status_behind};
ghost use Rattle.pf_cli.specs.Noted.{IsTold, fault_text, notes_in, status_ended};
ghost use Rattle.pf_cli.specs.Status.{Tells};
ghost use Rattle.pf_cli.specs.Tasks.{IsQuietIfDone};

use crate::fault_line::write_fault;
use crate::noted::Noted;
use pf_stream::sink::Sink;
use pf_stream::writing::write_out;
use pf_vocabulary::fault::ending::Ending;
use pf_vocabulary::fault::fault::Fault;
use pf_vocabulary::fault::status::Status;
use std::fmt::Display;
use std::io::Write;

/// Tells what a task has to tell, and the notes after it, or its fault, by its message or else by its line; answers the status. Where the output failed since nobody reads it any more, nothing is told, and the status is `gone`.
pub(crate) fn end<F: Sink>(noted: Noted, closed: bool, gone: Status, faults: &mut F) -> u8
    requires { F.failed faults.old < 2 ^ 64 - 1 }
    ensures status { result ≡ status_ended closed gone noted.outcome }
    ensures told { IsTold closed noted.outcome (notes_in noted.notes) (Tells (F.contents faults.old) (F.contents faults.new) (F.failed faults.old) (F.failed faults.new)) }
    ensures quiet { IfOk noted.outcome IsQuietIfDone → notes_in noted.notes ≡ [] → result ≡ 0 → Keeps (F.contents faults.old) (F.contents faults.new) }
{
    let Noted { outcome, notes } = noted;
    match outcome {
        Ok(ending) => end_done(&ending, notes_in(&notes), faults),
        Err(Fault::Write) => end_unwritten(notes_in(&notes), closed, gone, faults),
        Err(fault) => end_faulty(fault, notes_in(&notes), faults),
    }
}

/// The text of notes; none where they could not be had.
fn notes_in(notes: &Result<Vec<u8>, Fault>) -> &[u8]
    ensures { result.now ≡ notes_in notes.now }
{
    match notes {
        Ok(text) => text,
        Err(_) => b"",
    }
}

/// Tells what a task has to tell that was done, and its notes, and answers its status.
#[tactic(auto, using(crate::proofs::Quiet::done_of_zero, crate::proofs::Telling::nothing_told))]
fn end_done<F: Sink>(ending: &Ending, notes: &[u8], faults: &mut F) -> u8
    requires { F.failed faults.old < 2 ^ 64 - 1 }
    ensures status { result ≡ number_of ending.now.status }
    ensures told { Tells (F.contents faults.old) (F.contents faults.new) (F.failed faults.old) (F.failed faults.new) (ending.now.notes.items ++ notes.now) }
    ensures quiet { IsQuietIfDone ending.now → notes.now ≡ [] → result ≡ 0 → Keeps (F.contents faults.old) (F.contents faults.new) }
{
    tell_both(&ending.notes, notes, faults);
    ending.status.number()
}

/// Where the output failed: since nobody reads it any more, or for another reason, which is told.
#[tactic(auto, using(crate::proofs::Telling::kept, crate::proofs::Telling::told_none))]
pub(crate) fn end_unwritten<F: Sink>(notes: &[u8], closed: bool, gone: Status, faults: &mut F) -> u8
    requires { F.failed faults.old < 2 ^ 64 - 1 }
    ensures status { result ≡ status_ended closed gone (Err why.Write) }
    ensures told { IsTold closed (Err why.Write) notes.now (Tells (F.contents faults.old) (F.contents faults.new) (F.failed faults.old) (F.failed faults.new)) }
    ensures quiet { result ≡ 0 → Keeps (F.contents faults.old) (F.contents faults.new) }
{
    if closed {
        return gone.number();
    }
    end_faulty(Fault::Write, notes, faults)
}

/// Tells a fault, by its message or else by its line, and answers its status, which is not 0.
#[tactic(auto, using(crate::proofs::Quiet::never_zero))]
fn end_faulty<F: Sink>(fault: Fault, notes: &[u8], faults: &mut F) -> u8
    requires { F.failed faults.old < 2 ^ 64 - 1 }
    ensures status { result ≡ number_of (status_behind fault) }
    ensures told { Tells (F.contents faults.old) (F.contents faults.new) (F.failed faults.old) (F.failed faults.new) (fault_text fault notes.now) }
    ensures not_done { result ≢ 0 }
{
    tell_fault(fault, notes, faults);
    fault.status().number()
}

/// Tells a fault: its message, or its line where there is none. A fault of writing is passed over: it could be told nowhere.
#[tactic(auto, using(crate::proofs::Telling::one_told))]
pub(crate) fn tell_fault<F: Sink>(fault: Fault, message: &[u8], faults: &mut F)
    requires { F.failed faults.old < 2 ^ 64 - 1 }
    ensures { Tells (F.contents faults.old) (F.contents faults.new) (F.failed faults.old) (F.failed faults.new) (fault_text fault message.now) }
{
    match message {
        [] => {
            let _ = write_fault(fault, faults);
        }
        _ => {
            let _ = write_out(faults, message);
        }
    }
}

/// Tells a text and then another, which is left out where a write of the first one fails.
fn tell_both<F: Sink>(first: &[u8], second: &[u8], faults: &mut F)
    requires { F.failed faults.old < 2 ^ 64 - 1 }
    ensures { Tells (F.contents faults.old) (F.contents faults.new) (F.failed faults.old) (F.failed faults.new) (first.now ++ second.now) }
{
    if write_out(faults, first).is_ok() {
        let _ = write_out(faults, second);
    }
}

/// Tells a text. A fault of writing it is passed over: it could be told nowhere.
pub(crate) fn tell_text<F: Sink>(text: &[u8], faults: &mut F)
    requires { F.failed faults.old < 2 ^ 64 - 1 }
    ensures told { Tells (F.contents faults.old) (F.contents faults.new) (F.failed faults.old) (F.failed faults.new) text.now }
    ensures few { F.failed faults.new ≤ F.failed faults.old + 1 }
{
    let _ = write_out(faults, text);
}

/// The text of a fault, as a line. A fault of writing it is passed over: it could be told nowhere.
pub(crate) fn tell<D: Display, F: Write>(fault: &D, faults: &mut F) {
    let _ = writeln!(faults, "{fault}");
}
