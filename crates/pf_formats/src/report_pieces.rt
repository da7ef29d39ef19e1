use crate::document_pieces::DocumentPieces;
use crate::drawing_pieces::DrawingPieces;
use crate::table_pieces::TablePieces;
use pf_text::pieces::{Pieces, Whole};
use std::alloc::{AllocError, Global};

/// The pieces of a report: an arm for each kind of text.
pub enum ReportPieces<'a> {
    /// A text that is made at once, or none: a table of at most some 65,535 lines, or a script.
    Whole(Whole),
    /// A table that may be long.
    Table(TablePieces<'a>),
    /// A schedule that is drawn.
    Drawing(DrawingPieces<'a>),
    /// A document that programs read.
    Document(DocumentPieces<'a>),
}

// A call of its own, so that who drops pieces sees none of their kinds. Each kind is dropped by a call too.
impl Drop for ReportPieces<'_> {
    fn drop(self) {
        match self {
            ReportPieces::Whole(pieces) => drop(pieces),
            ReportPieces::Table(pieces) => drop(pieces),
            ReportPieces::Drawing(pieces) => drop(pieces),
            ReportPieces::Document(pieces) => drop(pieces),
        }
    }
}

impl Pieces for ReportPieces<'_> {
    ghost use Rattle.pf_formats.specs.Left.{text_left};

    ghost left = { text_left };

    ghost outcome = { λ _. tt };

    fn next_piece(&mut self, alloc: Global) -> Result<Option<Vec<u8>>, AllocError> {
        match self {
            ReportPieces::Whole(pieces) => pieces.next_piece(alloc),
            ReportPieces::Table(pieces) => pieces.next_piece(alloc),
            ReportPieces::Drawing(pieces) => pieces.next_piece(alloc),
            ReportPieces::Document(pieces) => pieces.next_piece(alloc),
        }
    }
}
