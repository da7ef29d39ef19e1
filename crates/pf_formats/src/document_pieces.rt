use pf_code::array::ArrayPieces;
use pf_full::full::FullPieces;
use pf_page::page::PagePieces;
use pf_report::json::JsonPieces;
use pf_text::pieces::{Chain, Pieces, Whole};
use pf_trace::trace::TracePieces;
use std::alloc::{AllocError, Global};

/// The pieces of a document that programs read.
pub enum DocumentPieces<'a> {
    /// The JSON object, as a line.
    Json(Chain<JsonPieces<'a>, Whole>),
    /// The JSON object of all that the run tells, between two texts: as a line, or in a page.
    Full(PagePieces<FullPieces<'a>>),
    /// The trace events.
    Trace(TracePieces<'a>),
    /// The schedule as a C header.
    Code(ArrayPieces<'a>),
}

// A call of its own, so that who drops a document sees none of their kinds. Each kind is dropped by a call too.
impl Drop for DocumentPieces<'_> {
    fn drop(self) {
        match self {
            DocumentPieces::Json(pieces) => drop(pieces),
            DocumentPieces::Full(pieces) => drop(pieces),
            DocumentPieces::Trace(pieces) => drop(pieces),
            DocumentPieces::Code(pieces) => drop(pieces),
        }
    }
}

impl Pieces for DocumentPieces<'_> {
    ghost use Rattle.pf_formats.specs.Left.{document_left};

    ghost left = { document_left };

    ghost outcome = { λ _. tt };

    fn next_piece(&mut self, alloc: Global) -> Result<Option<Vec<u8>>, AllocError> {
        match self {
            DocumentPieces::Json(pieces) => pieces.next_piece(alloc),
            DocumentPieces::Full(pieces) => pieces.next_piece(alloc),
            DocumentPieces::Trace(pieces) => pieces.next_piece(alloc),
            DocumentPieces::Code(pieces) => pieces.next_piece(alloc),
        }
    }
}
