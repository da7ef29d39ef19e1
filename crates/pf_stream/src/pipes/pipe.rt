ghost use Rattle.std.specs.Prelude.{◌≡◌, ◌||◌, Bool};
ghost use Rattle.std.specs.Io.KnownBytes.{Keeps};
ghost use Rattle.pf_stream.specs.Pipes.Broken.{is_broken_pipe};

use crate::sink::Sink;
use std::io;

/// A writer that knows whether the reader of what it writes has gone.
pub trait Pipe: Sink {
    // whether a write or a flush failed since nobody reads any more
    ghost closed: { Self → Bool };

    /// Whether a write or a flush failed since nobody reads any more.
    fn is_closed(&self) -> bool
        ensures { result ≡ closed self.now };

    /// Hands on what is held back of what was written. A failure is no failed write, and is kept where nobody reads any more.
    fn flush_kept(&mut self) -> io::Result<()>
        ensures bytes { Keeps (Self.contents self.old) (Self.contents self.new) }
        ensures count { Self.failed self.new ≡ Self.failed self.old }
        ensures closed { closed self.new ≡ (closed self.old || is_broken_pipe result) };
}
