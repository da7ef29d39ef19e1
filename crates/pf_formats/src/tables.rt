ghost use Rattle.std.specs.Prelude.{◌≡◌, ◌++◌, ℕ, List, IfOk};
ghost use Rattle.pf_formats.specs.Report.{tables_text};

use pf_desk::snapshot::Snapshot;
use pf_report::denials::{DenialPieces, denial_pieces};
use pf_report::lags::{LagPieces, pieces_of_lags};
use pf_report::misses::{MissPieces, pieces_of_misses};
use pf_report::schedule::{SchedulePieces, schedule_pieces};
use pf_tally::tally::Tally;
use pf_text::pieces::{Chain, Pieces, Whole};
use pf_vocabulary::names::titles::Titles;
use std::alloc::{AllocError, Global};

/// A line with a name, and a table.
type Titled<T> = Chain<Whole, T>;

/// The four tables, each after a line with its name, in pieces.
pub type FourTables<'a> = Chain<
    Chain<Chain<Titled<SchedulePieces<'a>>, Titled<LagPieces<'a>>>, Titled<MissPieces>>,
    Titled<DenialPieces<'a>>,
>;

/// A table after a line, where there is one. What was refused is handed on, so that no caller drops a table.
fn titled<T: Pieces + Drop>(
    alloc: Global,
    line: &[u8],
    table: Result<T, AllocError>,
) -> Result<Titled<T>, AllocError>
    ensures { (text : List ℕ) → IfOk table (λ t. T.left t ≡ text) → IfOk result (λ pieces. pieces ≡ line.now ++ text) }
{
    let line = Whole::new(Vec::from_slice(alloc, line)?);
    Ok(Chain::new(line, table?))
}

/// One text after another, where there are both.
fn chained<A: Pieces + Drop, B: Pieces + Drop>(
    first: Result<A, AllocError>,
    second: Result<B, AllocError>,
) -> Result<Chain<A, B>, AllocError>
    ensures { (front back : List ℕ) → IfOk first (λ a. A.left a ≡ front) → IfOk second (λ b. B.left b ≡ back) → IfOk result (λ pieces. pieces ≡ front ++ back) }
{
    Ok(Chain::new(first?, second?))
}

/// The four tables, each after a line with its name, in pieces. The lags and the missed windows are in memory until they
/// are written.
pub(crate) fn tables_pieces<'a>(
    alloc: Global,
    snapshot: &'a Snapshot,
    titles: &'a Titles,
) -> Result<FourTables<'a>, AllocError>
    ensures { IfOk result (λ pieces. pieces ≡ tables_text snapshot.now titles.now) }
{
    let Tally { lags, misses } = snapshot.tally()?;
    let schedule = titled(alloc, b"schedule\n", schedule_pieces(alloc, snapshot));
    let lags = titled(alloc, b"lags\n", pieces_of_lags(alloc, lags, titles));
    let misses = titled(alloc, b"misses\n", pieces_of_misses(alloc, misses));
    let denials = titled(alloc, b"denials\n", denial_pieces(alloc, snapshot));
    chained(chained(chained(schedule, lags), misses), denials)
}
