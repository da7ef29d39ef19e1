use std::snapshot::Snapshot;

/// What a board was founded on: its terms, which contracts alone read, and how many processors and passes it has.
#[derive(Drop)]
pub struct Charter<T> {
    pub terms: Snapshot<T>,
    pub processors: u32,
    pub passes: u32,
}
