use crate::words::conversion::Conversion;
use crate::words::list_word::ListWord;
use pf_vocabulary::options::fit_format::FitFormat;

/// What the words of a fit ask for.
#[derive(Drop)]
pub struct FitAsked {
    /// How it is told.
    pub format: FitFormat,
    /// What a list of tasks is planned for; its own format counts for nothing.
    pub conversion: Conversion,
    /// The first word that is for a list alone, where one is given.
    pub list_word: Option<ListWord>,
}
