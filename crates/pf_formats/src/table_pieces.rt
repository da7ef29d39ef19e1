use crate::tables::FourTables;
use pf_jobs::jobs::JobPieces;
use pf_jobs::load::LoadPieces;
use pf_report::misses::MissPieces;
use pf_report::quanta::QuantaPieces;
use pf_report::schedule_part::PartPieces;
use pf_text::pieces::Pieces;
use pf_windows::windows::WindowPieces;
use std::alloc::{AllocError, Global};

/// The pieces of a table that may be long.
pub enum TablePieces<'a> {
    /// The schedule of a range.
    Schedule(PartPieces<'a>),
    /// The four tables, each after a line with its name.
    Four(FourTables<'a>),
    /// The missed windows.
    Misses(MissPieces),
    /// The quanta of a range.
    Quanta(QuantaPieces<'a>),
    /// Load and room of a range.
    Load(LoadPieces),
    /// The windows of a range.
    Windows(WindowPieces<'a>),
    /// The jobs.
    Jobs(JobPieces<'a>),
}

// A call of its own, so that who drops a table sees none of their kinds. Each kind is dropped by a call too.
impl Drop for TablePieces<'_> {
    fn drop(self) {
        match self {
            TablePieces::Schedule(pieces) => drop(pieces),
            TablePieces::Four(pieces) => drop(pieces),
            TablePieces::Misses(pieces) => drop(pieces),
            TablePieces::Quanta(pieces) => drop(pieces),
            TablePieces::Load(pieces) => drop(pieces),
            TablePieces::Windows(pieces) => drop(pieces),
            TablePieces::Jobs(pieces) => drop(pieces),
        }
    }
}

impl Pieces for TablePieces<'_> {
    ghost use Rattle.pf_formats.specs.Left.{table_left};

    ghost left = { table_left };

    ghost outcome = { λ _. tt };

    fn next_piece(&mut self, alloc: Global) -> Result<Option<Vec<u8>>, AllocError> {
        match self {
            TablePieces::Schedule(pieces) => pieces.next_piece(alloc),
            TablePieces::Four(pieces) => pieces.next_piece(alloc),
            TablePieces::Misses(pieces) => pieces.next_piece(alloc),
            TablePieces::Quanta(pieces) => pieces.next_piece(alloc),
            TablePieces::Load(pieces) => pieces.next_piece(alloc),
            TablePieces::Windows(pieces) => pieces.next_piece(alloc),
            TablePieces::Jobs(pieces) => pieces.next_piece(alloc),
        }
    }
}
