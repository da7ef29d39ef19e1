ghost use Rattle.std.specs.Prelude.{◌≡◌, ◌++◌, ◌≤◌, ℕ, List, [], length, drop, IfOk, OnOk, OnErr};
ghost use Rattle.pf_stream.specs.Dialogue.Answered.{AnswersAhead, AnswersFront, AnswersLines, Stops, TakesByte};
ghost use Rattle.pf_stream.specs.Dialogue.Lines.{IsFront, ended, last_line, lines_in, longer};
ghost use Rattle.pf_stream.specs.declared.dialogue.answers.Going.TheVariants.{On};

use crate::dialogue::answers::{Answers, Going, Stopped};

/// The most bytes of a line that are kept: two more than a line may have, its line feed left out.
pub const LINE_KEPT: usize = 65_538;

/// The most bytes of answers that are held back: with more of them, they are told before the next line is answered.
pub const TEXT_HELD: usize = 65_536;

/// Adds a byte to a line that isn't at its end.
fn lengthen(line: &mut Vec<u8>, byte: u8) -> Result<(), Stopped>
    ensures ok { OnOk result (line.new.items ≡ longer line.old.items byte) }
{
    if line.len() < LINE_KEPT && line.push(byte).is_err() {
        return Err(Stopped);
    }
    Ok(())
}

/// Ends a line with its line feed.
fn end(line: &mut Vec<u8>) -> Result<(), Stopped>
    ensures ok { OnOk result (line.new.items ≡ ended line.old.items) }
{
    match line.push(b'\n') {
        Ok(()) => Ok(()),
        Err(_) => Err(Stopped),
    }
}

/// Takes one more byte, after the front of a line.
fn take_byte<A: Answers>(
    answers: &mut A,
    line: &mut Vec<u8>,
    byte: u8,
    text: &mut Vec<u8>,
) -> Result<Going, Stopped>
    ensures ok { IfOk result (λ going. TakesByte A.answers answers.old line.old.items byte text.old.items going answers.new line.new.items text.new.items) }
    ensures stop { OnErr result (Stops A.stops answers.old answers.new) }
    ensures err { OnErr result (text.new.items ≡ text.old.items) }
{
    if byte != b'\n' {
        lengthen(line, byte)?;
        return Ok(Going::On);
    }
    end(line)?;
    let going = answers.take(line, text)?;
    line.clear();
    Ok(going)
}

/// Answers the lines that end in these bytes, after the front of the first one, and keeps the front of the line that doesn't. Where
/// their text is longer than what is held back, it leaves the other bytes. Gives how many it took.
pub(crate) fn take_bytes<A: Answers>(
    answers: &mut A,
    line: &mut Vec<u8>,
    bytes: &[u8],
    text: &mut Vec<u8>,
) -> Result<(Going, usize), Stopped>
    requires empty { text.old.items ≡ [] }
    requires front { IsFront line.old.items }
    ensures ok { IfOk result (λ taken. AnswersAhead A.answers answers.old (line.old.items ++ bytes.now) text.new.items taken.0 answers.new
        (line.new.items ++ drop taken.1 bytes.now)) }
    ensures front { IfOk result (λ taken. taken.0 ≡ On → IsFront line.new.items) }
    ensures count { IfOk result (λ taken. taken.1 ≤ length bytes.now) }
    ensures err { OnErr result (AnswersFront A.answers A.stops answers.old (lines_in [] (line.old.items ++ bytes.now)) text.new.items answers.new) }
{
    for (at, byte) in bytes.iter().enumerate() {
        match take_byte(answers, line, *byte, text) {
            Ok(Going::On) => {}
            Ok(Going::Ends) => return Ok((Going::Ends, at + 1)),
            Err(stopped) => return Err(stopped),
        }
        if text.len() > TEXT_HELD {
            return Ok((Going::On, at + 1));
        }
    }
    Ok((Going::On, bytes.len()))
}

/// Answers the last line, which lacks its line feed, where there is one.
pub(crate) fn take_last<A: Answers>(
    answers: &mut A,
    line: &[u8],
    text: &mut Vec<u8>,
) -> Result<Going, Stopped>
    requires { text.old.items ≡ [] }
    ensures ok { IfOk result (λ going. AnswersLines A.answers answers.old (last_line line.now) text.new.items going answers.new) }
    ensures err { OnErr result (AnswersFront A.answers A.stops answers.old (last_line line.now) text.new.items answers.new) }
{
    if line.is_empty() {
        return Ok(Going::On);
    }
    answers.take(line, text)
}
