ghost use Rattle.std.specs.Prelude.{◌≡◌, ◌≢◌, ℕ, List, [], true, false, Some, IfOk, OnOk, OnErr};
ghost use Rattle.pf_stream.specs.Dialogue.Ahead.{HearsAhead, IsAhead, ahead_of};
ghost use Rattle.pf_stream.specs.Dialogue.Answered.{AnswersAhead, AnswersFront, AnswersLines};
ghost use Rattle.pf_stream.specs.Dialogue.Lines.{last_line, lines_in};
ghost use Rattle.pf_stream.specs.declared.dialogue.answers.Going.TheVariants.{On};

use crate::dialogue::answers::{Answers, Going, Stopped};
use crate::dialogue::dialogue::{Deaf, Dialogue};
use crate::dialogue::lines::{LINE_KEPT, take_bytes, take_last};
use std::alloc::{AllocError, Global};

// How many bytes are asked for at once.
const PIECE: usize = 65_536;

/// What came and is not answered yet: the front of a line, and then what is left of the piece that came last.
#[derive(Drop)]
pub(crate) struct Ahead {
    /// The front of a line.
    pub(crate) line: Vec<u8>,
    /// The piece that came last.
    pub(crate) piece: Vec<u8>,
    /// Where in the piece that begins which is left.
    pub(crate) from: usize,
    /// Where it ends.
    pub(crate) to: usize,
}

impl Ahead {
    /// Nothing, with room for what comes.
    pub(crate) fn new(alloc: Global) -> Result<Self, AllocError>
        ensures is { IfOk result (λ a. IsAhead a) }
        ensures none { IfOk result (λ a. ahead_of a ≡ []) }
    {
        let line = Vec::with_capacity(alloc, LINE_KEPT + 1)?;
        let piece = vec![in alloc; 0; PIECE]?;
        Ok(Ahead {
            line,
            piece,
            from: 0,
            to: 0,
        })
    }

    /// Asks for more where nothing of the last piece is left. Gives whether the end was met.
    pub(crate) fn hear<D: Dialogue>(&mut self, dialogue: &mut D) -> Result<bool, Deaf>
        requires is { IsAhead self.old }
        requires open { D.is_open dialogue.old }
        ensures open { OnOk result (D.is_open dialogue.new) }
        ensures ok { IfOk result (λ ends. HearsAhead D.hears dialogue.old self.old ends dialogue.new self.new) }
        ensures err { OnErr result (D.is_deaf dialogue.old dialogue.new) }
    {
        if self.from < self.to {
            return Ok(false);
        }
        let came = match dialogue.hear(&mut self.piece) {
            Ok(came) => came,
            Err(deaf) => return Err(deaf),
        };
        self.from = 0;
        self.to = came;
        Ok(came == 0)
    }

    /// Answers the lines that are ahead, as far as answers are held back.
    pub(crate) fn take<A: Answers>(
        &mut self,
        answers: &mut A,
        text: &mut Vec<u8>,
    ) -> Result<Going, Stopped>
        requires is { IsAhead self.old }
        requires empty { text.old.items ≡ [] }
        ensures is { IfOk result (λ going. going ≡ On → IsAhead self.new) }
        ensures ok { IfOk result (λ going. AnswersAhead A.answers answers.old (ahead_of self.old) text.new.items going answers.new (ahead_of self.new)) }
        ensures err { OnErr result (AnswersFront A.answers A.stops answers.old (lines_in [] (ahead_of self.old)) text.new.items answers.new) }
    {
        let bytes = &self.piece[self.from..self.to];
        match take_bytes(answers, &mut self.line, bytes, text) {
            Ok((going, count)) => {
                self.from += count;
                Ok(going)
            }
            Err(stopped) => Err(stopped),
        }
    }

    /// Answers the last line, where there is one.
    pub(crate) fn take_last<A: Answers>(
        &self,
        answers: &mut A,
        text: &mut Vec<u8>,
    ) -> Result<Going, Stopped>
        requires none { self.now.from ≡ self.now.to }
        requires empty { text.old.items ≡ [] }
        ensures ok { IfOk result (λ going. AnswersLines A.answers answers.old (last_line (ahead_of self.now)) text.new.items going answers.new) }
        ensures err { OnErr result (AnswersFront A.answers A.stops answers.old (last_line (ahead_of self.now)) text.new.items answers.new) }
    {
        take_last(answers, &self.line, text)
    }
}
