/// What is told on standard error beside answers and faults.
#[derive(Clone, Copy)]
pub struct Telling {
    /// Whether messages are whole, with where and what: of all commands but a run or a drill of standard input without `--notes`.
    pub whole: bool,
    /// Whether hints and notes are told: where messages are whole, and `--quiet` is not there.
    pub notes: bool,
    /// Whether a terminal is told how a script or a list ends there: no file is named for it, nor `-`, and `--quiet` is not there.
    pub prompt: bool,
}
