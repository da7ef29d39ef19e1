use pf_engine::saved_engine::SavedEngine;

/// What goes on from a slot: the engine there, and how many denials there were below it.
#[derive(Drop)]
pub struct Checkpoint {
    /// The engine, saved, which had taken the slots below.
    pub engine: SavedEngine,
    /// How many denials those slots had.
    pub denials: usize,
}
