ghost use Rattle.std.specs.Prelude.{◌≡◌, codes, option_map, IfOk};
ghost use Rattle.pf_arguments.specs.Mistakes.Hints.{format_hint, format_like, near_or, run_formats};

use crate::mistakes::near::near_or;
use std::alloc::{AllocError, Global};

/// What is meant by a word that names no format of a run: by one that others use for it, or by one that is near; else where formats
/// are told.
pub(crate) fn format_hint(alloc: Global, word: &str) -> Result<Vec<u8>, AllocError>
    ensures { IfOk result (λ text. text.items ≡ format_hint word.now) }
{
    let lowered = word.to_ascii_lowercase(alloc)?;
    match format_like(&lowered) {
        Some(meant) => Vec::from_slice(alloc, meant.as_bytes()),
        None => near_format(alloc, word),
    }
}

/// What is meant by a word that others use for a format.
#[tactic(auto, unfolding(crate::specs::Mistakes::Hints::format_like))]
fn format_like(word: &str) -> Option<&'static str>
    ensures { option_map (λ text. text.now) result ≡ format_like word.now }
{
    match word {
        "gantt" | "plot" => Some("chart or svg"),
        "text" | "txt" => Some("chart"),
        "png" => Some("svg, of which rsvg-convert makes a PNG"),
        "pdf" => Some("svg, of which rsvg-convert makes a PDF"),
        "csv" => Some("schedule, quanta, windows, jobs or stats: each is CSV"),
        "perfetto" | "chrome" => Some("trace"),
        "header" | "h" => Some("c"),
        "page" => Some("html"),
        _ => None,
    }
}

/// The format that a word is near to; else where formats are told.
fn near_format(alloc: Global, word: &str) -> Result<Vec<u8>, AllocError>
    ensures { IfOk result (λ text. text.items ≡ near_or word.now run_formats (codes "pfair help formats")) }
{
    let names = [
        "schedule",
        "tables",
        "json",
        "report",
        "replies",
        "lags",
        "misses",
        "denials",
        "events",
        "script",
        "processors",
        "stats",
        "chart",
        "svg",
        "windows",
        "jobs",
        "load",
        "quanta",
        "full",
        "trace",
        "html",
        "c",
    ];
    near_or(alloc, word, &names, "pfair help formats")
}
