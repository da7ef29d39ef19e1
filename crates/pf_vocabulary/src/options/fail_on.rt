ghost use Rattle.std.specs.Prelude.{◌≡◌};
ghost use Rattle.pf_vocabulary.specs.Options.FailLists.{fail_on_named, is_listed, is_word_of_list, on_nothing};

/// What a run fails on, where it is met.
#[derive(Clone, Copy)]
pub struct FailOn {
    /// A command of the script was refused.
    pub refused: bool,
    /// An event is denied at the end.
    pub denied: bool,
    /// A window is missed at the end.
    pub missed: bool,
}

impl FailOn {
    /// What fails on nothing.
    pub fn nothing() -> FailOn
        ensures { result ≡ on_nothing }
    {
        FailOn {
            refused: false,
            denied: false,
            missed: false,
        }
    }

    /// What a list names: words of `refused`, `denied` and `missed`, joined by commas, in any order. One that stands there
    /// twice says no more than one. `None` where the list has another word, or an empty one.
    pub fn named(list: &str) -> Option<FailOn>
        ensures { result ≡ fail_on_named list.now }
    {
        if !list.split(',').all(is_word) {
            return None;
        }
        Some(FailOn {
            refused: is_listed(list, "refused"),
            denied: is_listed(list, "denied"),
            missed: is_listed(list, "missed"),
        })
    }
}

/// Whether it is a word that may stand in a list: `refused`, `denied` or `missed`.
pub fn is_word(word: &str) -> bool
    ensures { result ≡ is_word_of_list word.now }
{
    matches!(word, "refused" | "denied" | "missed")
}

/// Whether a word stands in a list.
fn is_listed(list: &str, word: &str) -> bool
    ensures { result ≡ is_listed word.now list.now }
{
    list.split(',').any(|listed| listed == word)
}
