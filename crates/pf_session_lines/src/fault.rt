ghost use Rattle.std.specs.Prelude.{◌≡◌, ◌≤◌};
ghost use Rattle.pf_session_lines.specs.Faults.{fault_at, of_length};

use pf_script::fields::Fields;
use pf_script::plan::fault::Reason;

/// Why a line is bad.
#[derive(Clone, Copy)]
pub enum LineReason {
    /// As a record of a plan is.
    OfRecord(Reason),
    /// Its first field names no record, and is no word.
    NoWord,
    /// The settings are expected before this word.
    NoSettings,
    /// A field of the word is missing that stands in the first one.
    Missing,
    /// There is a field too much after that word.
    TooMuch,
    /// It is no number of 1 to 15 digits.
    NoNumber,
    /// It is not within 1 to `most`.
    Outside {
        /// The number that stands there.
        number: u64,
        /// The greatest one that may.
        most: u64,
    },
    /// It names no task so far.
    NoTask,
}

/// What is wrong with a line.
#[derive(Clone, Copy)]
pub struct LineFault {
    /// The field that is at fault, counted from 1.
    pub field: usize,
    /// Why.
    pub reason: LineReason,
}

/// A fault of the field at a place from 0.
pub(crate) fn fault_at(place: usize, reason: LineReason) -> LineFault
    requires { place ≤ 3 }
    ensures { result ≡ fault_at place reason }
{
    LineFault {
        field: place + 1,
        reason,
    }
}

/// Where a word has so many fields with itself, least to most.
pub(crate) fn expect_length(fields: &Fields, least: usize, most: usize) -> Result<(), LineFault>
    requires { (least ≤ 3) × (most ≤ 3) }
    ensures { result ≡ of_length fields.now least most }
{
    let length = fields.len();
    if length < least {
        return Err(fault_at(length, LineReason::Missing));
    }
    if length > most {
        return Err(fault_at(most, LineReason::TooMuch));
    }
    Ok(())
}
