/// Why words ask for no slot.
#[derive(Clone, Copy)]
pub enum WhyMistake {
    /// The slot is no number.
    Slot,
    /// The format is none.
    Format,
    /// The task is neither a number nor a name.
    Task,
}

impl WhyMistake {
    ghost use Rattle.std.specs.Prelude.{◌≡◌};
    ghost use Rattle.pf_vocabulary.specs.Questions.Reading.{mistake_words};

    /// What is told of it, without a line end.
    pub fn words(self) -> &'static str
        ensures { result.now ≡ mistake_words self }
    {
        match self {
            WhyMistake::Slot => "SLOT is a number of 1 to 15 digits",
            WhyMistake::Format => "unknown format",
            WhyMistake::Task => "--task takes a task number of 1 to 4095 or a name",
        }
    }
}
