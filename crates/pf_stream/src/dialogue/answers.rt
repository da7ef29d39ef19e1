ghost use Rattle.std.specs.Prelude.{◌≡◌, ◌++◌, ℕ, List, IfOk, OnErr, OnOk};
ghost use Rattle.pf_stream.specs.declared.dialogue.answers.Going.{Going};

/// Whether more lines are wanted after one.
#[derive(Clone, Copy)]
pub enum Going {
    /// They are.
    On,
    /// The line was the last one.
    Ends,
}

/// Memory was refused, and no further line can be answered.
#[derive(Clone, Copy)]
pub struct Stopped;

/// What was answered could not be kept, and no further line can be answered.
#[derive(Clone, Copy)]
pub struct Unkept;

/// What answers lines, and keeps what it answered.
pub trait Answers {
    // what it was answers a line by a text, and is then something else, which more lines are given to or not
    ghost answers: { Self → List ℕ → List ℕ → Going → Self → Type 0 };

    // a line could not be answered, and no further one can
    ghost stops: { Self → Self → Type 0 };

    // all that was answered is kept
    ghost keeps: { Self → Self → Type 0 };

    // it could not all be kept
    ghost loses: { Self → Self → Type 0 };

    /// Answers a line as it came: with the line feed at its end, which the last one may lack. Appends the text of the answer.
    ///
    /// # Errors
    ///
    /// Where no further line can be answered: the text is as before.
    fn take(&mut self, line: &[u8], text: &mut Vec<u8>) -> Result<Going, Stopped>
        ensures ok { IfOk result (λ going. (answer : List ℕ) × answers self.old line.now answer going self.new
            × (text.new.items ≡ text.old.items ++ answer)) }
        ensures stop { OnErr result (stops self.old self.new) }
        ensures err { OnErr result (text.new.items ≡ text.old.items) };

    /// Keeps what was answered, so that it may be told. A line that could not be answered is not kept.
    ///
    /// # Errors
    ///
    /// Where it can't be kept: it is not to be told.
    fn keep(&mut self) -> Result<(), Unkept>
        ensures ok { OnOk result (keeps self.old self.new) }
        ensures err { OnErr result (loses self.old self.new) };
}
