/// What a session takes back.
#[derive(Clone, Copy)]
pub enum Reversal {
    /// The last change that was made and is not taken back.
    Undo,
    /// The last change that an undo made and no redo took back.
    Redo,
}
