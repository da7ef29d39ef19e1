use pf_desk::snapshot::Snapshot;
use pf_vocabulary::fault::ending::Ending;
use pf_vocabulary::fault::fault::Fault;

/// What a task came to, and the notes that are told after it; a fault in their place where they could not be had.
#[derive(Drop)]
pub(crate) struct Noted {
    /// What it came to.
    pub(crate) outcome: Result<Ending, Fault>,
    /// The notes.
    pub(crate) notes: Result<Vec<u8>, Fault>,
}

/// What the desk shows at the end of a script, and its notes; a fault in their place where they could not be had.
#[derive(Drop)]
pub(crate) struct ShownScript {
    /// What it shows.
    pub(crate) outcome: Result<Snapshot, Fault>,
    /// The notes.
    pub(crate) notes: Result<Vec<u8>, Fault>,
}
