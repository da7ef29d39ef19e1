use pf_chart::chart::ChartPieces;
use pf_picture::picture::PicturePieces;
use pf_text::pieces::Pieces;
use std::alloc::{AllocError, Global};

/// The pieces of a schedule that is drawn.
pub enum DrawingPieces<'a> {
    /// The chart of a range.
    Chart(ChartPieces<'a>),
    /// The picture of a range.
    Picture(PicturePieces<'a>),
}

// A call of its own, so that who drops a drawing sees neither kind. Each kind is dropped by a call too.
impl Drop for DrawingPieces<'_> {
    fn drop(self) {
        match self {
            DrawingPieces::Chart(pieces) => drop(pieces),
            DrawingPieces::Picture(pieces) => drop(pieces),
        }
    }
}

impl Pieces for DrawingPieces<'_> {
    ghost use Rattle.pf_formats.specs.Left.{drawing_left};

    ghost left = { drawing_left };

    ghost outcome = { λ _. tt };

    fn next_piece(&mut self, alloc: Global) -> Result<Option<Vec<u8>>, AllocError> {
        match self {
            DrawingPieces::Chart(pieces) => pieces.next_piece(alloc),
            DrawingPieces::Picture(pieces) => pieces.next_piece(alloc),
        }
    }
}
