ghost use Rattle.std.specs.Prelude.{◌≡◌, ◌≢◌, ℕ, ◌+◌, ◌-◌, ◌^◌, ◌<◌, IfErr, if◌then◌else◌};
ghost use Rattle.std.specs.Io.{WritesAtMost};
ghost use Rattle.std.specs.Io.KnownBytes.{WriteAppends};
ghost use Rattle.std.specs.IoError.{error_kind};
ghost use Rattle.pf_stream.specs.Failing.{is_failed_write};

use crate::tries::write_on;
use std::io;
use std::io::{ErrorKind, Write};

/// A writer that knows how many of its writes failed. A write that took none of the bytes offered failed too.
pub trait Sink: Write {
    // how many of its writes failed
    ghost failed: { Self → ℕ };

    /// How many of its writes failed.
    fn failures(&self) -> u64
        ensures { result ≡ failed self.now };

    /// One write, which counts itself where it fails. One that a signal interrupted is made again, and is no failure. The count
    /// must be below `u64::MAX` before the call.
    fn write_counted(&mut self, buf: &[u8]) -> io::Result<usize>
        requires { failed self.old < 2 ^ 64 - 1 }
        ensures bound { WritesAtMost result buf.now }
        ensures bytes { WriteAppends (Self.contents self.old) (Self.contents self.new) result buf.now }
        ensures count { failed self.new ≡ failed self.old + (if is_failed_write result buf.now then 1 else 0) }
        ensures retried { IfErr result (λ e. error_kind e ≢ ErrorKind.Interrupted) };
}

/// Any writer, with a count of the writes that failed. A plain `write` counts too, and is made again where a signal interrupted it;
/// there the count stays at `u64::MAX`.
#[derive(Drop)]
pub struct CountedWriter<W> {
    writer: W,
    failures: u64,
}

impl<W: Write> CountedWriter<W> {
    ghost use Rattle.std.specs.Prelude.{◌≡◌};
    ghost use Rattle.pf_stream.specs.Counted.{writer_under, write_failures};

    /// The writer, none of whose writes has failed yet.
    pub fn new(writer: W) -> Self
        ensures under { writer_under result ≡ writer }
        ensures fresh { write_failures result ≡ 0 }
    {
        CountedWriter {
            writer,
            failures: 0,
        }
    }

    /// The writer underneath.
    pub fn into_inner(self) -> W
        ensures { result ≡ writer_under self }
    {
        let CountedWriter {
            writer,
            failures: _,
        } = self;
        writer
    }
}

/// Whether a write failed: an error, or none of the bytes offered taken.
fn has_failed(outcome: &io::Result<usize>, buf: &[u8]) -> bool
    ensures { result ≡ is_failed_write outcome.now buf.now }
{
    match outcome {
        Ok(taken) => *taken == 0 && !buf.is_empty(),
        Err(_) => true,
    }
}

impl<W: Write> Write for CountedWriter<W> {
    ghost use Rattle.std.specs.Prelude.{◌≡◌, ◌≢◌, ◌+◌, ◌-◌, ◌^◌, min, IfErr, if◌then◌else◌};
    ghost use Rattle.std.specs.Io.{WritesAtMost};
    ghost use Rattle.std.specs.Io.KnownBytes.{WriteAppends, Keeps};
    ghost use Rattle.std.specs.IoError.{error_kind};
    ghost use Rattle.pf_stream.specs.Counted.{writer_under, write_failures};
    ghost use Rattle.pf_stream.specs.Failing.{is_failed_write};

    ghost contents = { λ w. W.contents w.writer };

    fn write(&mut self, buf: &[u8]) -> io::Result<usize>
        ensures bound { WritesAtMost result buf.now }
        ensures bytes { WriteAppends (W.contents (writer_under self.old)) (W.contents (writer_under self.new)) result buf.now }
        ensures count { write_failures self.new ≡ (if is_failed_write result buf.now
            then min (write_failures self.old + 1) (2 ^ 64 - 1) else write_failures self.old) }
        ensures retried { IfErr result (λ e. error_kind e ≢ ErrorKind.Interrupted) }
    {
        let outcome = write_on(&mut self.writer, buf);
        if has_failed(&outcome, buf) {
            self.failures = self.failures.saturating_add(1);
        }
        outcome
    }

    fn flush(&mut self) -> io::Result<()>
        ensures bytes { Keeps (W.contents (writer_under self.old)) (W.contents (writer_under self.new)) }
        ensures count { write_failures self.new ≡ write_failures self.old }
    {
        self.writer.flush()
    }
}

impl<W: Write> Sink for CountedWriter<W> {
    ghost failed = { λ w. w.failures };

    fn failures(&self) -> u64 {
        self.failures
    }

    fn write_counted(&mut self, buf: &[u8]) -> io::Result<usize> {
        let outcome = write_on(&mut self.writer, buf);
        if has_failed(&outcome, buf) {
            self.failures += 1;
        }
        outcome
    }
}
