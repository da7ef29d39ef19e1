use crate::words::read::ConvertWords;

/// A word of a fit that is for a list of tasks, and for no script or plan.
#[derive(Clone, Copy)]
pub enum ListWord {
    Quantum,
    Processors,
    Switch,
    Unit,
    Arrivals,
}

impl ListWord {
    ghost use Rattle.std.specs.Prelude.{◌≡◌};
    ghost use Rattle.pf_convert.specs.Words.Fits.{first_word, word_line};
    ghost use Rattle.pf_convert.specs.Words.Reading.{texts_of};

    /// The first of them that is given.
    pub fn first(words: &ConvertWords<'_>) -> Option<ListWord>
        ensures { result ≡ first_word (texts_of words.now) }
    {
        if words.quantum.is_some() {
            Some(ListWord::Quantum)
        } else if words.processors.is_some() {
            Some(ListWord::Processors)
        } else if words.switch.is_some() {
            Some(ListWord::Switch)
        } else if words.unit.is_some() {
            Some(ListWord::Unit)
        } else if words.arrivals.is_some() {
            Some(ListWord::Arrivals)
        } else {
            None
        }
    }

    /// What is told of it where there is no list.
    pub fn line(self) -> &'static str
        ensures { result.now ≡ word_line self }
    {
        match self {
            ListWord::Quantum => "--quantum is for a list of tasks\n",
            ListWord::Processors => "--processors is for a list of tasks\n",
            ListWord::Switch => "--switch is for a list of tasks\n",
            ListWord::Unit => "--unit is for a list of tasks\n",
            ListWord::Arrivals => "--arrivals is for a list of tasks\n",
        }
    }
}
