use crate::bytes::Bytes;
use crate::reversal::Reversal;
use crate::wanted::Wanted;
use pf_script::plan::said::Said;

/// What a line is.
#[derive(Drop)]
pub enum Heard {
    /// It has no record and no answer.
    Nothing,
    /// The heading `plan,1`.
    Heading,
    /// A record, and the line that goes after the script: its fields joined by commas, and a line feed.
    Record(Said, Bytes),
    /// A word that asks for this to be shown.
    Shown(Wanted),
    /// A change is to be taken back.
    Reverse(Reversal),
    /// The script is to be written to the file of this name.
    Save(Bytes),
    /// The words are to be told.
    Help,
    /// The session is to end.
    Quit,
    /// A bad line.
    Bad {
        /// The field at fault, counted from 1; 0 where the line is.
        field: u64,
        /// Why it is bad.
        text: Bytes,
        /// What would be right; no byte where nothing can be said.
        hint: Bytes,
    },
}
