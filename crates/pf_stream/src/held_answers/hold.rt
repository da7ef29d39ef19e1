ghost use Rattle.std.specs.Prelude.{◌≡◌, ◌-◌, ◌^◌, ◌<◌, Bool, true};
ghost use Rattle.pf_stream.specs.HeldAnswers.Held.{seen};
ghost use Rattle.pf_stream.specs.HeldAnswers.Streams.{Hears, IsDeaf, IsMute, Tells, streams_of};
ghost use Rattle.pf_stream.specs.Dialogue.Sits.{HasSat, talk_of};

use crate::dialogue::answers::{Answers, Going};
use crate::dialogue::fault::SitFault;
use crate::dialogue::sitting::sit;
use crate::held_answers::held::Held;
use crate::pipes::pipe::Pipe;
use crate::sink::Sink;
use crate::source::Source;
use std::sync::Wait;

/// Answers the lines that a reader gives, until they end (`Going::On`) or one of them is the last (`Going::Ends`): each answer is
/// written before more is read than was read already, and what was answered is kept before it is written. Answers are held back for
/// those behind them up to 65,536 bytes. Where prompts are asked for, one is told before each read, until that fails once.
/// The counts of failures must be below `u64::MAX` before the call, that of the prompts where they are asked for.
///
/// # Errors
///
/// `Deaf` and `Mute` where the reader and the writer fail; `NoMemory` where memory is refused: what was answered by then was written;
/// `Unkept` where what was answered in the last round could not be kept: nothing of that was written.
pub fn hold<H: AllocGlobal + Wait, A: Answers, R: Source, W: Pipe, F: Sink>(
    rt: &H,
    answers: &mut A,
    reader: &mut R,
    writer: &mut W,
    prompted: &mut F,
    prompts: bool,
) -> Result<Going, SitFault>
    requires reads { R.failed reader.old < 2 ^ 64 - 1 }
    requires writes { W.failed writer.old < 2 ^ 64 - 1 }
    requires prompts { prompts ≡ true → F.failed prompted.old < 2 ^ 64 - 1 }
    ensures { (more : Bool) × HasSat (talk_of A.answers A.stops A.keeps A.loses Hears IsDeaf Tells IsMute) answers.old
        (streams_of (R.remaining reader.old) (R.failed reader.old) (W.contents writer.old) (W.failed writer.old) (F.contents prompted.old) (F.failed prompted.old) prompts)
        result answers.new
        (streams_of (R.remaining reader.new) (R.failed reader.new) (W.contents writer.new) (W.failed writer.new) (F.contents prompted.new) (F.failed prompted.new) more) }
{
    let mut held = Held {
        reader,
        writer,
        prompted,
        prompts,
    };
    sit_held(rt, answers, &mut held)
}

/// The same, over streams that are held.
fn sit_held<H: AllocGlobal + Wait, A: Answers, R: Source, W: Pipe, F: Sink>(
    rt: &H,
    answers: &mut A,
    held: &mut Held<'_, '_, '_, R, W, F>,
) -> Result<Going, SitFault>
    requires reads { R.failed held.old.reader.now < 2 ^ 64 - 1 }
    requires writes { W.failed held.old.writer.now < 2 ^ 64 - 1 }
    requires prompts { held.old.prompts ≡ true → F.failed held.old.prompted.now < 2 ^ 64 - 1 }
    ensures reader { held.new.reader.ghost_name ≡ held.old.reader.ghost_name }
    ensures writer { held.new.writer.ghost_name ≡ held.old.writer.ghost_name }
    ensures prompted { held.new.prompted.ghost_name ≡ held.old.prompted.ghost_name }
    ensures sat { HasSat (talk_of A.answers A.stops A.keeps A.loses Hears IsDeaf Tells IsMute) answers.old (seen R.remaining R.failed W.contents W.failed F.contents F.failed held.old)
        result answers.new (seen R.remaining R.failed W.contents W.failed F.contents F.failed held.new) }
{
    sit(rt, answers, held)
}
