use crate::report_pieces::ReportPieces;
use pf_text::pieces::Pieces;
use pf_vocabulary::task_lines::listed_lines::ListedLines;
use std::alloc::{AllocError, Global};

/// The pieces of what is shown of some tasks.
pub enum TaskPieces<'a> {
    /// A text that is made of these tasks alone, or none.
    Made(ReportPieces<'a>),
    /// The lines of a table that are of these tasks.
    Listed(ListedLines<ReportPieces<'a>>),
}

// A call of its own, so that who drops pieces sees neither kind. Each kind is dropped by a call too.
impl Drop for TaskPieces<'_> {
    fn drop(self) {
        match self {
            TaskPieces::Made(pieces) => drop(pieces),
            TaskPieces::Listed(pieces) => drop(pieces),
        }
    }
}

impl Pieces for TaskPieces<'_> {
    ghost use Rattle.pf_formats.specs.TaskLeft.{task_text_left};

    ghost left = { task_text_left };

    ghost outcome = { λ _. tt };

    fn next_piece(&mut self, alloc: Global) -> Result<Option<Vec<u8>>, AllocError> {
        match self {
            TaskPieces::Made(pieces) => pieces.next_piece(alloc),
            TaskPieces::Listed(pieces) => pieces.next_piece(alloc),
        }
    }
}
