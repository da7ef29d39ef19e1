use crate::reversal::Reversal;
use crate::wanted::Wanted;

/// What a word asks for.
#[derive(Drop)]
pub enum Asked {
    /// That this is shown.
    Shown(Wanted),
    /// That a change is taken back.
    Reverse(Reversal),
    /// That the script is written to the file that the second field names.
    Save,
    /// That the words are told.
    Help,
    /// That the session ends.
    Quit,
}
