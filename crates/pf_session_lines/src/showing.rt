/// What came of what was asked to be shown.
#[derive(Drop)]
pub enum Showing {
    /// It is this text.
    Text(Vec<u8>),
    /// It can't be shown, and these words tell why; no line's end stands after them.
    Bad(Vec<u8>),
}
