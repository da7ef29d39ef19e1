ghost use Rattle.std.specs.Prelude.{◌≡◌, ◌-◌, ◌^◌, ◌<◌, true};
ghost use Rattle.pf_stream.specs.HeldAnswers.Streams.{Prompts};

use crate::dialogue::dialogue::{Deaf, Dialogue, Mute};
use crate::pipes::pipe::Pipe;
use crate::sink::Sink;
use crate::source::Source;
use crate::writing::write_out;

/// What is told where more is asked for, if it is.
pub const PROMPT: &[u8; 2] = b"> ";

/// A dialogue over streams: lines come from a reader, and their answers go to a writer. Where prompts are asked for, a third stream is
/// told one each time before more is asked for, until that fails once.
#[derive(Drop)]
pub struct Held<'r, 'w, 'p, R, W, F> {
    /// Whence lines come.
    pub reader: &'r mut R,
    /// Where answers go to.
    pub writer: &'w mut W,
    /// Where prompts go to.
    pub prompted: &'p mut F,
    /// Whether prompts are told.
    pub prompts: bool,
}

/// Tells a prompt where one is wanted, and gives whether further ones are.
fn prompt<F: Sink>(wanted: bool, prompted: &mut F) -> bool
    requires { wanted ≡ true → F.failed prompted.old < 2 ^ 64 - 1 }
    ensures { Prompts wanted result (F.contents prompted.old) (F.contents prompted.new) (F.failed prompted.old) (F.failed prompted.new) }
{
    wanted && write_out(prompted, PROMPT).is_ok()
}

impl<R: Source, W: Pipe, F: Sink> Dialogue for Held<'_, '_, '_, R, W, F> {
    ghost use Rattle.std.specs.Prelude.{◌≡◌, ◌-◌, ◌^◌, ◌<◌, true};
    ghost use Rattle.pf_stream.specs.HeldAnswers.Streams.{Hears, IsDeaf, IsMute, Tells};
    ghost use Rattle.pf_stream.specs.HeldAnswers.Held.{AreSame, seen};

    ghost is_open = { λ d. (R.failed d.reader.now < 2 ^ 64 - 1) × (W.failed d.writer.now < 2 ^ 64 - 1)
        × (d.prompts ≡ true → F.failed d.prompted.now < 2 ^ 64 - 1) };

    ghost hears = { λ d bytes e. AreSame d e × Hears (seen R.remaining R.failed W.contents W.failed F.contents F.failed d) bytes
        (seen R.remaining R.failed W.contents W.failed F.contents F.failed e) };

    ghost is_deaf = { λ d e. AreSame d e × IsDeaf (seen R.remaining R.failed W.contents W.failed F.contents F.failed d)
        (seen R.remaining R.failed W.contents W.failed F.contents F.failed e) };

    ghost tells = { λ d text e. AreSame d e × Tells (seen R.remaining R.failed W.contents W.failed F.contents F.failed d) text
        (seen R.remaining R.failed W.contents W.failed F.contents F.failed e) };

    ghost is_mute = { λ d text e. AreSame d e × IsMute (seen R.remaining R.failed W.contents W.failed F.contents F.failed d) text
        (seen R.remaining R.failed W.contents W.failed F.contents F.failed e) };

    fn hear(&mut self, buf: &mut [u8]) -> Result<usize, Deaf> {
        self.prompts = prompt(self.prompts, self.prompted);
        match self.reader.read_counted(buf) {
            Ok(came) => Ok(came),
            Err(_) => Err(Deaf),
        }
    }

    fn tell(&mut self, text: &[u8]) -> Result<(), Mute> {
        let Ok(()) = write_out(self.writer, text) else {
            return Err(Mute);
        };
        match self.writer.flush_kept() {
            Ok(()) => Ok(()),
            Err(_) => Err(Mute),
        }
    }
}
