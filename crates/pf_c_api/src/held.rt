use pf_desk::desk::Desk;
use pf_vocabulary::names::titles::Titles;

/// A desk, and what the script told beside it that it was opened with.
#[derive(Drop)]
pub struct Held {
    /// The desk.
    pub desk: Desk,
    /// The names of its tasks and how long a slot is, where it was opened with a plan; else none.
    pub titles: Titles,
}
