ghost use Rattle.std.specs.Prelude.{◌≡◌, ◌≢◌, ℕ, ◌+◌, ◌-◌, ◌^◌, ◌<◌, IfErr, MatchResult};
ghost use Rattle.std.specs.Io.{ReadsAtMost};
ghost use Rattle.std.specs.Io.KnownBytes.{ReadConsumes};
ghost use Rattle.std.specs.IoError.{error_kind};

use crate::tries::read_on;
use std::io;
use std::io::{ErrorKind, Read};

/// A reader that knows how many of its reads failed.
pub trait Source: Read {
    // how many of its reads failed
    ghost failed: { Self → ℕ };

    /// How many of its reads failed.
    fn failures(&self) -> u64
        ensures { result ≡ failed self.now };

    /// One read, which counts itself where it fails. One that a signal interrupted is made again, and is no failure. The count must
    /// be below `u64::MAX` before the call.
    fn read_counted(&mut self, buf: &mut [u8]) -> io::Result<usize>
        requires { failed self.old < 2 ^ 64 - 1 }
        ensures bound { ReadsAtMost result buf.new }
        ensures bytes { ReadConsumes (Self.remaining self.old) (Self.remaining self.new) result buf.new }
        ensures count { MatchResult result (λ _. failed self.new ≡ failed self.old)
            (λ _. failed self.new ≡ failed self.old + 1) }
        ensures retried { IfErr result (λ e. error_kind e ≢ ErrorKind.Interrupted) };
}

/// Any reader, with a count of the reads that failed. A plain `read` counts too, and is made again where a signal interrupted it;
/// there the count stays at `u64::MAX`.
#[derive(Drop)]
pub struct CountedReader<R> {
    reader: R,
    failures: u64,
}

impl<R: Read> CountedReader<R> {
    ghost use Rattle.std.specs.Prelude.{◌≡◌};
    ghost use Rattle.pf_stream.specs.Counted.{reader_under, read_failures};

    /// The reader, none of whose reads has failed yet.
    pub fn new(reader: R) -> Self
        ensures under { reader_under result ≡ reader }
        ensures fresh { read_failures result ≡ 0 }
    {
        CountedReader {
            reader,
            failures: 0,
        }
    }

    /// The reader underneath.
    pub fn into_inner(self) -> R
        ensures { result ≡ reader_under self }
    {
        let CountedReader {
            reader,
            failures: _,
        } = self;
        reader
    }
}

impl<R: Read> Read for CountedReader<R> {
    ghost use Rattle.std.specs.Prelude.{◌≡◌, ◌≢◌, ◌+◌, ◌-◌, ◌^◌, min, IfErr, MatchResult};
    ghost use Rattle.std.specs.Io.{ReadsAtMost};
    ghost use Rattle.std.specs.Io.KnownBytes.{ReadConsumes};
    ghost use Rattle.std.specs.IoError.{error_kind};
    ghost use Rattle.pf_stream.specs.Counted.{reader_under, read_failures};

    ghost remaining = { λ r. R.remaining r.reader };

    fn read(&mut self, buf: &mut [u8]) -> io::Result<usize>
        ensures bound { ReadsAtMost result buf.new }
        ensures bytes { ReadConsumes (R.remaining (reader_under self.old)) (R.remaining (reader_under self.new)) result buf.new }
        ensures count { MatchResult result (λ _. read_failures self.new ≡ read_failures self.old)
            (λ _. read_failures self.new ≡ min (read_failures self.old + 1) (2 ^ 64 - 1)) }
        ensures retried { IfErr result (λ e. error_kind e ≢ ErrorKind.Interrupted) }
    {
        let outcome = read_on(&mut self.reader, buf);
        if outcome.is_err() {
            self.failures = self.failures.saturating_add(1);
        }
        outcome
    }
}

impl<R: Read> Source for CountedReader<R> {
    ghost failed = { λ r. r.failures };

    fn failures(&self) -> u64 {
        self.failures
    }

    fn read_counted(&mut self, buf: &mut [u8]) -> io::Result<usize> {
        let outcome = read_on(&mut self.reader, buf);
        if outcome.is_err() {
            self.failures += 1;
        }
        outcome
    }
}
