ghost use Rattle.std.specs.Prelude.{◌≡◌, IfOk};
ghost use Rattle.std.specs.String.{string_bytes};
ghost use Rattle.pf_session_views.specs.Shown.{AreRangeWords, AreWords, bad_record, long_text, outside_text, range_text, record_words};

use pf_script::plan::fault::{BadRecord, Reason};
use pf_session_lines::wanted::Wanted;
use pf_vocabulary::fault::fault::Fault;
use pf_vocabulary::fault::range_fault::RangeFault;
use pf_vocabulary::options::format::Format;
use std::alloc::{AllocError, Global};

/// The words of a fault that a script has of which something is wanted, after so many slots; those of a bad record by the first one
/// of the plan that it belongs to, where it belongs to one.
///
/// # Errors
///
/// Where memory is refused, and for a fault that no script has.
pub(crate) fn words(
    alloc: Global,
    wanted: &Wanted,
    now: u64,
    bad: Option<BadRecord>,
    fault: Fault,
) -> Result<Vec<u8>, AllocError>
    ensures { IfOk result (λ words. AreWords wanted.now now bad fault words.items) }
{
    let words = match fault {
        Fault::BadRecord(number) => record_words(alloc, bad, number)?,
        Fault::TooLong => String::from_str(alloc, "the script is longer than 16777216 bytes")?,
        Fault::BadRange(range) => wanted_words(alloc, wanted, now, range)?,
        _ => return Err(AllocError),
    };
    Ok(words.into_bytes())
}

/// Those of a script whose record of this number is bad.
fn record_words(alloc: Global, bad: Option<BadRecord>, number: u64) -> Result<String, AllocError>
    ensures { IfOk result (λ words. string_bytes words ≡ record_words bad number) }
{
    match bad {
        None => bad_record(alloc, number),
        Some(bad) => match bad.fault.reason {
            Reason::NoSettings => String::from_str(alloc, "settings are expected"),
            _ => bad_record(alloc, bad.number),
        },
    }
}

/// That the record of this number is bad.
fn bad_record(alloc: Global, number: u64) -> Result<String, AllocError>
    ensures { IfOk result (λ words. string_bytes words ≡ bad_record number) }
{
    format!(in alloc; "bad record {number}")
}

/// Why a range of a format that was wanted can't be shown of so many slots; `NoMemory` stands for what no format has.
fn wanted_words(
    alloc: Global,
    wanted: &Wanted,
    now: u64,
    range: RangeFault,
) -> Result<String, AllocError>
    ensures { IfOk result (λ words. AreRangeWords wanted.now now range (string_bytes words)) }
{
    match wanted {
        Wanted::Report(format) => range_words(alloc, *format, now, range),
        Wanted::Why(_) | Wanted::Fit => Err(AllocError),
    }
}

/// Why a format can't be shown of so many slots.
pub(crate) fn range_words(
    alloc: Global,
    format: Format,
    now: u64,
    fault: RangeFault,
) -> Result<String, AllocError>
    ensures { IfOk result (λ words. string_bytes words ≡ range_text format now fault) }
{
    let range = format.range();
    match fault {
        RangeFault::NotWithin(_) => outside_text(alloc, range.first(), range.to, now),
        RangeFault::TooLong => long_text(alloc, format, range.slots(now)),
    }
}

/// That a range from here, to its end where it has one, is not within so many slots.
fn outside_text(alloc: Global, from: u64, to: Option<u64>, now: u64) -> Result<String, AllocError>
    ensures { IfOk result (λ words. string_bytes words ≡ outside_text from to now) }
{
    match to {
        Some(to) if from > to => format!(in alloc; "F {from} is above T {to}"),
        Some(to) if to > now => format!(in alloc; "T {to} is above {now}, the slots stepped"),
        _ => format!(in alloc; "F {from} is above {now}, the slots stepped"),
    }
}

/// That a picture or a page of so many slots is too long.
fn long_text(alloc: Global, format: Format, slots: u64) -> Result<String, AllocError>
    ensures { IfOk result (λ words. string_bytes words ≡ long_text format slots) }
{
    match format {
        Format::Html => {
            format!(in alloc; "a page shows at most 65536 slots, and {slots} are asked for")
        }
        _ => format!(in alloc; "a picture shows at most 4096 slots, and {slots} are asked for"),
    }
}
