use std::io::{ErrorKind, Read, Write};
use std::time::{Clock, Duration};
use std::{io, thread};

// How many milliseconds it sleeps before it asks again.
const PAUSE: u64 = 1;

/// A stream that waits, whether or not the one underneath was set to do so: where that has no byte yet, or no room, it is asked
/// again after a millisecond of sleep.
#[derive(Drop)]
pub struct Patient<'c, S, C> {
    stream: S,
    clock: &'c C,
}

impl<'c, S, C: Clock> Patient<'c, S, C> {
    ghost use Rattle.std.specs.Prelude.{◌≡◌};
    ghost use Rattle.pf_stream.specs.Counted.{stream_under};

    /// The stream, which sleeps by this clock.
    pub fn new(stream: S, clock: &'c C) -> Self
        ensures { stream_under result ≡ stream }
    {
        Patient { stream, clock }
    }
}

impl<S: Read, C: Clock> Read for Patient<'_, S, C> {
    ghost use Rattle.std.specs.Prelude.{◌≢◌, IfErr};
    ghost use Rattle.std.specs.Io.{ReadsAtMost};
    ghost use Rattle.std.specs.Io.KnownBytes.{ReadConsumes};
    ghost use Rattle.std.specs.IoError.{error_kind};
    ghost use Rattle.pf_stream.specs.Counted.{stream_under};

    ghost remaining = { λ p. S.remaining p.stream };

    fn read(&mut self, buf: &mut [u8]) -> io::Result<usize>
        ensures bound { ReadsAtMost result buf.new }
        ensures bytes { ReadConsumes (S.remaining (stream_under self.old)) (S.remaining (stream_under self.new)) result buf.new }
        ensures waits { IfErr result (λ e. error_kind e ≢ ErrorKind.WouldBlock) }
    {
        'tries: for _ in 0..u64::MAX {
            match self.stream.read(buf) {
                Err(fault) if fault.kind() == ErrorKind::WouldBlock => {
                    thread::sleep(self.clock, Duration::from_millis(PAUSE))
                }
                outcome => return outcome,
            }
        }
        Err(io::Error::from(ErrorKind::TimedOut))
    }
}

impl<S: Write, C: Clock> Write for Patient<'_, S, C> {
    ghost use Rattle.std.specs.Prelude.{◌≢◌, IfErr};
    ghost use Rattle.std.specs.Io.{WritesAtMost};
    ghost use Rattle.std.specs.Io.KnownBytes.{WriteAppends, Keeps};
    ghost use Rattle.std.specs.IoError.{error_kind};
    ghost use Rattle.pf_stream.specs.Counted.{stream_under};

    ghost contents = { λ p. S.contents p.stream };

    fn write(&mut self, buf: &[u8]) -> io::Result<usize>
        ensures bound { WritesAtMost result buf.now }
        ensures bytes { WriteAppends (S.contents (stream_under self.old)) (S.contents (stream_under self.new)) result buf.now }
        ensures waits { IfErr result (λ e. error_kind e ≢ ErrorKind.WouldBlock) }
    {
        'tries: for _ in 0..u64::MAX {
            match self.stream.write(buf) {
                Err(fault) if fault.kind() == ErrorKind::WouldBlock => {
                    thread::sleep(self.clock, Duration::from_millis(PAUSE))
                }
                outcome => return outcome,
            }
        }
        Err(io::Error::from(ErrorKind::TimedOut))
    }

    fn flush(&mut self) -> io::Result<()>
        ensures { Keeps (S.contents (stream_under self.old)) (S.contents (stream_under self.new)) }
    {
        self.stream.flush()
    }
}
