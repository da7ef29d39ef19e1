ghost use Rattle.std.specs.Prelude.{◌≡◌};
ghost use Rattle.pf_stream.specs.Pipes.Broken.{is_broken_pipe};

use crate::pipes::pipe::Pipe;
use crate::sink::{CountedWriter, Sink};
use std::io;
use std::io::{ErrorKind, Write};

/// A counted writer that keeps whether a write or a flush failed since nobody reads any more.
#[derive(Drop)]
pub struct KeptWriter<W> {
    writer: CountedWriter<W>,
    closed: bool,
}

impl<W: Write> KeptWriter<W> {
    ghost use Rattle.std.specs.Prelude.{◌≡◌, false};
    ghost use Rattle.pf_stream.specs.Counted.{write_failures, writer_under};
    ghost use Rattle.pf_stream.specs.Pipes.Kept.{counted_writer, was_closed};

    /// The writer, none of whose writes has failed yet.
    pub fn new(writer: W) -> Self
        ensures under { writer_under (counted_writer result) ≡ writer }
        ensures fresh { write_failures (counted_writer result) ≡ 0 }
        ensures open { was_closed result ≡ false }
    {
        KeptWriter {
            writer: CountedWriter::new(writer),
            closed: false,
        }
    }
}

/// Whether a write or a flush failed since nobody reads any more.
fn is_broken_pipe<T>(outcome: &io::Result<T>) -> bool
    ensures { result ≡ is_broken_pipe outcome.now }
{
    match outcome {
        Ok(_) => false,
        Err(fault) => fault.kind() == ErrorKind::BrokenPipe,
    }
}

impl<W: Write> Write for KeptWriter<W> {
    ghost use Rattle.std.specs.Prelude.{◌≡◌, ◌≢◌, ◌||◌, IfErr};
    ghost use Rattle.std.specs.Io.{WritesAtMost};
    ghost use Rattle.std.specs.Io.KnownBytes.{Keeps, WriteAppends};
    ghost use Rattle.std.specs.IoError.{error_kind};
    ghost use Rattle.pf_stream.specs.Counted.{write_failures, writer_under};
    ghost use Rattle.pf_stream.specs.Pipes.Broken.{is_broken_pipe};
    ghost use Rattle.pf_stream.specs.Pipes.Kept.{counted_writer, was_closed};

    ghost contents = { λ w. W.contents (writer_under w.writer) };

    fn write(&mut self, buf: &[u8]) -> io::Result<usize>
        ensures bound { WritesAtMost result buf.now }
        ensures bytes { WriteAppends (W.contents (writer_under (counted_writer self.old))) (W.contents (writer_under (counted_writer self.new))) result buf.now }
        ensures closed { was_closed self.new ≡ (was_closed self.old || is_broken_pipe result) }
        ensures retried { IfErr result (λ e. error_kind e ≢ ErrorKind.Interrupted) }
    {
        let outcome = self.writer.write(buf);
        self.closed = self.closed || is_broken_pipe(&outcome);
        outcome
    }

    fn flush(&mut self) -> io::Result<()>
        ensures bytes { Keeps (W.contents (writer_under (counted_writer self.old))) (W.contents (writer_under (counted_writer self.new))) }
        ensures count { write_failures (counted_writer self.new) ≡ write_failures (counted_writer self.old) }
        ensures closed { was_closed self.new ≡ (was_closed self.old || is_broken_pipe result) }
    {
        let outcome = self.writer.flush();
        self.closed = self.closed || is_broken_pipe(&outcome);
        outcome
    }
}

impl<W: Write> Sink for KeptWriter<W> {
    ghost use Rattle.std.specs.Prelude.{◌≡◌, ◌≢◌, ◌||◌, ◌+◌, ◌-◌, ◌^◌, ◌<◌, IfErr, if◌then◌else◌};
    ghost use Rattle.std.specs.Io.{WritesAtMost};
    ghost use Rattle.std.specs.Io.KnownBytes.{WriteAppends};
    ghost use Rattle.std.specs.IoError.{error_kind};
    ghost use Rattle.pf_stream.specs.Counted.{write_failures, writer_under};
    ghost use Rattle.pf_stream.specs.Failing.{is_failed_write};
    ghost use Rattle.pf_stream.specs.Pipes.Broken.{is_broken_pipe};
    ghost use Rattle.pf_stream.specs.Pipes.Kept.{counted_writer, was_closed};

    ghost failed = { λ w. write_failures w.writer };

    fn failures(&self) -> u64 {
        self.writer.failures()
    }

    fn write_counted(&mut self, buf: &[u8]) -> io::Result<usize>
        requires { write_failures (counted_writer self.old) < 2 ^ 64 - 1 }
        ensures bound { WritesAtMost result buf.now }
        ensures bytes { WriteAppends (W.contents (writer_under (counted_writer self.old))) (W.contents (writer_under (counted_writer self.new))) result buf.now }
        ensures count { write_failures (counted_writer self.new) ≡ write_failures (counted_writer self.old)
            + (if is_failed_write result buf.now then 1 else 0) }
        ensures closed { was_closed self.new ≡ (was_closed self.old || is_broken_pipe result) }
        ensures retried { IfErr result (λ e. error_kind e ≢ ErrorKind.Interrupted) }
    {
        let outcome = self.writer.write_counted(buf);
        self.closed = self.closed || is_broken_pipe(&outcome);
        outcome
    }
}

impl<W: Write> Pipe for KeptWriter<W> {
    ghost use Rattle.pf_stream.specs.Pipes.Kept.{was_closed};

    ghost closed = { was_closed };

    fn is_closed(&self) -> bool {
        self.closed
    }

    fn flush_kept(&mut self) -> io::Result<()> {
        self.flush()
    }
}
