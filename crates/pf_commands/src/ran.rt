use pf_desk::desk::Desk;
use pf_vocabulary::fault::ending::Ending;

/// What a run came to that carried its script out to the end.
#[derive(Drop)]
pub struct Ran {
    /// How it ended: its status, and nothing to tell.
    pub ending: Ending,
    /// The desk at the script's end.
    pub desk: Desk,
}
