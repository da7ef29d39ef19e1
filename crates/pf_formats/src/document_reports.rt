ghost use Rattle.std.specs.Prelude.{◌≡◌, ◌++◌, IfOk};
ghost use Rattle.pf_code.specs.Array.{c_text};
ghost use Rattle.pf_code.specs.Symbol.{usual_symbol};
ghost use Rattle.pf_full.specs.Full.{full_text};
ghost use Rattle.pf_page.specs.Page.{page_text};
ghost use Rattle.pf_report.specs.Json.{json_text};
ghost use Rattle.pf_report.specs.Replies.{line_end};
ghost use Rattle.pf_report.specs.Script.{script_text_of};
ghost use Rattle.pf_trace.specs.Trace.{trace_text};
ghost use Rattle.pf_vocabulary.specs.Options.Ranges.{whole};
ghost use Rattle.pf_formats.specs.Left.{text_left};

use crate::document_pieces::DocumentPieces;
use crate::report_pieces::ReportPieces;
use pf_code::array::c_pieces;
use pf_code::symbol::Symbol;
use pf_desk::snapshot::Snapshot;
use pf_full::full::full_pieces;
use pf_full::refusal::Refusal;
use pf_page::page::page_pieces;
use pf_report::json::json_pieces;
use pf_report::script::script_text;
use pf_text::pieces::{Chain, Whole};
use pf_trace::trace::trace_pieces;
use pf_vocabulary::names::titles::Titles;
use pf_vocabulary::options::slot_range::SlotRange;
use std::alloc::{AllocError, Global};

/// The JSON object, as a line.
pub(crate) fn json_line<'a>(
    alloc: Global,
    snapshot: &'a Snapshot,
    titles: &Titles,
) -> Result<ReportPieces<'a>, AllocError>
    ensures { IfOk result (λ pieces. text_left pieces ≡ json_text snapshot.now titles.now ++ line_end) }
{
    let end = Whole::new(Vec::from_slice(alloc, b"\n")?);
    let object = json_pieces(alloc, snapshot, titles)?;
    Ok(ReportPieces::Document(DocumentPieces::Json(Chain::new(object, end))))
}

/// A script of the desk.
pub(crate) fn script_of<'a>(
    alloc: Global,
    snapshot: &Snapshot,
    every: u64,
    titles: &Titles,
) -> Result<ReportPieces<'a>, AllocError>
    ensures { IfOk result (λ pieces. text_left pieces ≡ script_text_of every snapshot.now titles.now) }
{
    let script = script_text(alloc, snapshot, every, titles)?;
    Ok(ReportPieces::Whole(Whole::new(script)))
}

/// The trace events.
pub(crate) fn trace_of<'a>(
    alloc: Global,
    snapshot: &'a Snapshot,
    titles: &'a Titles,
) -> Result<ReportPieces<'a>, AllocError>
    ensures { IfOk result (λ pieces. text_left pieces ≡ trace_text titles.now snapshot.now) }
{
    let trace = trace_pieces(alloc, snapshot, titles)?;
    Ok(ReportPieces::Document(DocumentPieces::Trace(trace)))
}

/// The schedule as a C header, of all slots.
pub(crate) fn code_of<'a>(
    alloc: Global,
    snapshot: &'a Snapshot,
    titles: &'a Titles,
) -> Result<ReportPieces<'a>, AllocError>
    ensures { IfOk result (λ pieces. text_left pieces ≡ c_text snapshot.now titles.now whole usual_symbol) }
{
    let symbol = Symbol::usual();
    let code = c_pieces(alloc, snapshot, titles, SlotRange::whole(), &symbol)?;
    Ok(ReportPieces::Document(DocumentPieces::Code(code)))
}

/// The JSON object of all that the run tells, as a line.
pub(crate) fn full_line<'a>(
    alloc: Global,
    snapshot: &'a Snapshot,
    every: u64,
    titles: &Titles,
    refusals: Vec<Refusal>,
) -> Result<ReportPieces<'a>, AllocError>
    ensures { IfOk result (λ pieces. text_left pieces ≡ full_text every titles.now refusals.items snapshot.now ++ line_end) }
{
    let end = Whole::new(Vec::from_slice(alloc, b"\n")?);
    let object = full_pieces(alloc, snapshot, every, titles, refusals)?;
    let line = Chain::new(Whole::new(Vec::new(alloc)), Chain::new(object, end));
    Ok(ReportPieces::Document(DocumentPieces::Full(line)))
}

/// That object in a page.
pub(crate) fn page_of<'a>(
    alloc: Global,
    snapshot: &'a Snapshot,
    every: u64,
    titles: &Titles,
    refusals: Vec<Refusal>,
) -> Result<ReportPieces<'a>, AllocError>
    ensures { IfOk result (λ pieces. text_left pieces ≡ page_text (full_text every titles.now refusals.items snapshot.now)) }
{
    let object = full_pieces(alloc, snapshot, every, titles, refusals)?;
    let page = page_pieces(alloc, object)?;
    Ok(ReportPieces::Document(DocumentPieces::Full(page)))
}
