//! The line that is told of a fault.
ghost use Rattle.std.specs.Prelude.{◌≡◌, ◌+◌, ◌-◌, ◌^◌, ◌<◌, ◌++◌, OnOk, OnErr, MatchResult};
ghost use Rattle.std.specs.Fmt.{decimal};
ghost use Rattle.std.specs.Io.KnownBytes.{Appends};
ghost use Rattle.pf_stream.specs.Written.{TookFront};
ghost use Rattle.pf_cli.specs.FaultLines.{fault_line, numbered_line};

use itoa::Buffer;
use pf_stream::sink::Sink;
use pf_stream::writing::{WriteFault, write_out};
use pf_vocabulary::fault::fault::Fault;
use pf_vocabulary::fault::range_fault::RangeFault;

/// Writes the line of a fault. No memory is taken for it.
///
/// # Errors
///
/// Where a write fails: a front of the line was written.
pub(crate) fn write_fault<F: Sink>(fault: Fault, faults: &mut F) -> Result<(), WriteFault>
    requires { F.failed faults.old < 2 ^ 64 - 1 }
    ensures ok { OnOk result (Appends (F.contents faults.old) (F.contents faults.new) (fault_line fault)) }
    ensures err { OnErr result (TookFront (F.contents faults.old) (F.contents faults.new) (fault_line fault)) }
    ensures count { MatchResult result (λ _. F.failed faults.new ≡ F.failed faults.old)
        (λ _. F.failed faults.new ≡ F.failed faults.old + 1) }
{
    match fault {
        Fault::BadRecord(number) => write_numbered(faults, b"bad record ", number, b"\n"),
        Fault::TooLong => write_out(faults, b"the script is longer than 16777216 bytes\n"),
        Fault::BadRange(RangeFault::NotWithin(now)) => {
            write_numbered(faults, b"range not within ", now, b" slots\n")
        }
        Fault::BadRange(RangeFault::TooLong) => write_out(faults, b"range too long\n"),
        Fault::Read => write_out(faults, b"cannot read the script\n"),
        Fault::Write => write_out(faults, b"cannot write the output\n"),
        Fault::NoMemory => write_out(faults, b"out of memory\n"),
        Fault::NoViewer | Fault::Unread => write_out(faults, b"no place for a reader\n"),
        Fault::GateShut => write_out(faults, b"a gate stayed shut\n"),
    }
}

/// Writes a line with a number in it.
#[tactic(auto, using(crate::proofs::FaultLines::first_stopped, crate::proofs::FaultLines::rest_stopped, crate::proofs::FaultLines::both_written))]
fn write_numbered<F: Sink>(
    faults: &mut F,
    before: &[u8],
    number: u64,
    behind: &[u8],
) -> Result<(), WriteFault>
    requires { F.failed faults.old < 2 ^ 64 - 1 }
    ensures ok { OnOk result (Appends (F.contents faults.old) (F.contents faults.new) (numbered_line before.now number behind.now)) }
    ensures err { OnErr result (TookFront (F.contents faults.old) (F.contents faults.new) (numbered_line before.now number behind.now)) }
    ensures count { MatchResult result (λ _. F.failed faults.new ≡ F.failed faults.old)
        (λ _. F.failed faults.new ≡ F.failed faults.old + 1) }
{
    write_out(faults, before)?;
    write_number(faults, number, behind)?;
    Ok(())
}

/// Writes a number and then a text.
fn write_number<F: Sink>(faults: &mut F, number: u64, behind: &[u8]) -> Result<(), WriteFault>
    requires { F.failed faults.old < 2 ^ 64 - 1 }
    ensures ok { OnOk result (Appends (F.contents faults.old) (F.contents faults.new) (decimal number ++ behind.now)) }
    ensures err { OnErr result (TookFront (F.contents faults.old) (F.contents faults.new) (decimal number ++ behind.now)) }
    ensures count { MatchResult result (λ _. F.failed faults.new ≡ F.failed faults.old)
        (λ _. F.failed faults.new ≡ F.failed faults.old + 1) }
{
    let mut digits = Buffer::new();
    write_two(faults, digits.format(number).as_bytes(), behind)
}

/// Writes a text and then another.
#[tactic(auto, using(crate::proofs::FaultLines::first_stopped, crate::proofs::FaultLines::rest_stopped, crate::proofs::FaultLines::both_written))]
fn write_two<F: Sink>(faults: &mut F, first: &[u8], second: &[u8]) -> Result<(), WriteFault>
    requires { F.failed faults.old < 2 ^ 64 - 1 }
    ensures ok { OnOk result (Appends (F.contents faults.old) (F.contents faults.new) (first.now ++ second.now)) }
    ensures err { OnErr result (TookFront (F.contents faults.old) (F.contents faults.new) (first.now ++ second.now)) }
    ensures count { MatchResult result (λ _. F.failed faults.new ≡ F.failed faults.old)
        (λ _. F.failed faults.new ≡ F.failed faults.old + 1) }
{
    write_out(faults, first)?;
    write_out(faults, second)?;
    Ok(())
}
