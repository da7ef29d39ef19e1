/// A line of a listed task.
#[derive(Clone, Copy)]
pub enum TrackRow {
    /// Where it runs and waits.
    Runs,
    /// Its windows.
    Windows,
    /// Its lag.
    Lag,
    /// Its marks.
    Marks,
}
