/// How a session answers.
#[derive(Clone, Copy)]
pub struct Manner {
    /// Each answer is one JSON object on one line.
    pub json: bool,
    /// Lines that are indented are left out.
    pub quiet: bool,
    /// A last line without its line end is bad, and not answered as if it had it.
    pub whole: bool,
}
